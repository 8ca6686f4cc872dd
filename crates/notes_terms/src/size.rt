// What is refused behind a part that may be too large.

ghost use Rattle.std.specs.Prelude.{◌≡◌, Result, nat_lt};
ghost use Rattle.sexp_text.specs.declared.fault.TextFault.{TextFault as Fault};
ghost use Rattle.sexp_text.specs.Reading.{Gives};
ghost use Rattle.term_trees.specs.Terms.{node_count};
ghost use Rattle.term_trees.specs.Formulas.{formula_nodes};
ghost use Rattle.notes_grammar.specs.Parts.{parts_of};
ghost use Rattle.notes_grammar.specs.Reading.{behind, ended, limited};
ghost use Rattle.notes_terms.specs.words.Forms.{beside};

use notes_parts::{form, place};
use sexp_text::{Sexp, TextFault};
use term_trees::{Formula, Term, formula_nodes, nodes};
use wasm_values::LimitWord;

/// The most nodes of a term or a formula.
const MAX_NODES: usize = 4096;

/// What is made of nodes.
pub(crate) trait Measured: Drop {
    ghost use Rattle.std.specs.Prelude.{ℕ};

    ghost count: { Self → ℕ };

    /// Whether it has more than 4,096 nodes.
    fn is_too_large(&self) -> bool
        ensures { result ≡ nat_lt 4096 (count self.now) };
}

impl Measured for Term {
    ghost count = { node_count };

    fn is_too_large(&self) -> bool {
        nodes(self) > MAX_NODES
    }
}

impl Measured for Formula {
    ghost count = { formula_nodes };

    fn is_too_large(&self) -> bool {
        formula_nodes(self) > MAX_NODES
    }
}

fn too_large(at: usize) -> TextFault
    ensures { result ≡ TextFault.Limit at LimitWord.Nodes }
{
    TextFault::Limit {
        at,
        word: LimitWord::Nodes,
    }
}

/// The part at this place, if it isn't too large.
pub(crate) fn limited<T: Measured>(at: usize, value: T) -> Result<T, TextFault>
    ensures { Gives (λ x. x) result (limited at (T.count value) value) }
{
    if value.is_too_large() {
        return Err(too_large(at));
    }
    Ok(value)
}

/// The part at this place, with no part behind it.
pub(crate) fn last<T: Measured>(at: usize, value: T, rest: &[Sexp]) -> Result<T, TextFault>
    ensures { Gives (λ x. x) result (behind at (T.count value) (ended value (parts_of rest.now))) }
{
    let [first, ..] = rest else {
        return Ok(value);
    };
    if value.is_too_large() {
        return Err(too_large(at));
    }
    form(place(first))
}

/// The part at this place, and what is read behind it.
pub(crate) fn both<T: Measured>(
    at: usize,
    first: T,
    second: Result<T, TextFault>,
) -> Result<(T, T), TextFault>
    ensures { (said : Result T Fault) → Gives (λ x. x) second said → Gives (λ x. x) result (beside at (T.count first) first said) }
{
    match second {
        Ok(second) => Ok((first, second)),
        Err(TextFault::OutOfMemory) => Err(TextFault::OutOfMemory),
        Err(fault) => {
            if first.is_too_large() {
                return Err(too_large(at));
            }
            Err(fault)
        }
    }
}
