// The leaves that the assertion of a label may have.

ghost use Rattle.std.specs.Prelude.{◌≡◌, is_some, nat_lt};
ghost use Rattle.outline_rules.specs.Blocks.{label_place};
ghost use Rattle.block_labels.specs.words.Scopes.{label_scope, row_scope};

use notes::Assertion;
use symbolic_state::TrackedState;
use term_logic::{Place, Scoped};
use wasm_values::ValType;

/// What the assertion of a label may speak of: the variables of the state, its own variables, locals, stable globals, the page
/// count, and the result where a branch to the label takes one.
#[derive(Clone, Copy)]
pub(crate) struct LabelScope<'a> {
    pub(crate) state: &'a TrackedState,
    pub(crate) takes: Option<ValType>,
    pub(crate) assertion: &'a Assertion,
}

/// Whether a state has a place, or a branch to the label takes a result.
fn has_place(state: &TrackedState, takes: Option<ValType>, place: Place) -> bool
    ensures { result ≡ is_some (label_place state.now.state takes place) }
{
    match place {
        Place::Local(k) => state.local(k).is_some(),
        Place::Global(k) => state.global(k).is_some(),
        Place::Pages => state.pages().is_some(),
        Place::Result => takes.is_some(),
        Place::Stack(_) => false,
        Place::Arg(_) => false,
        Place::Index => false,
        Place::Item => false,
    }
}

impl Scoped for LabelScope<'_> {
    ghost scope = { label_scope };

    fn has_variable(&self, k: u32) -> bool {
        k < self.state.variables()
    }

    fn has_own(&self, k: u32) -> bool {
        k < self.assertion.own
    }

    fn has_place(&self, place: Place) -> bool {
        has_place(self.state, self.takes, place)
    }
}

/// The same in the formula of a row, which may have `(index)` and `(item)` too.
#[derive(Clone, Copy)]
pub(crate) struct RowScope<'a> {
    pub(crate) around: LabelScope<'a>,
}

impl Scoped for RowScope<'_> {
    ghost scope = { row_scope };

    fn has_variable(&self, k: u32) -> bool {
        self.around.has_variable(k)
    }

    fn has_own(&self, k: u32) -> bool {
        self.around.has_own(k)
    }

    fn has_place(&self, place: Place) -> bool {
        match place {
            Place::Index => true,
            Place::Item => true,
            _ => self.around.has_place(place),
        }
    }
}
