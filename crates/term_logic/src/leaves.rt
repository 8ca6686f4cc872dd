ghost use Rattle.std.specs.Prelude.{◌≡◌, ◌<◌, List, [], ℕ, slice_get};
ghost use Rattle.term_trees.specs.declared.term.Term.{Term};
ghost use Rattle.term_trees.specs.Leaves.{no_leaves};
ghost use Rattle.term_logic.specs.Leaves.{leaves_of, place_id, LeavesWithin};

use crate::table::TermId;
use term_trees::Place;
use wasm_values::ValType;

/// The terms of a table that stand for the leaves of a term. A leaf past the end of its list has none.
///
/// `none` makes one, and the calls after it say what it has.
#[derive(Clone, Copy)]
pub struct LeafIds<'a> {
    pub variables: &'a [TermId],
    pub own: &'a [TermId],
    pub locals: &'a [(ValType, TermId)],
    /// The top is the last.
    pub stack: &'a [(ValType, TermId)],
    pub globals: &'a [Option<TermId>],
    pub pages: Option<TermId>,
    pub args: &'a [TermId],
    pub result: Option<TermId>,
    pub index: Option<TermId>,
    pub item: Option<TermId>,
}

impl<'a> LeafIds<'a> {
    /// No leaf has a term in its place.
    pub fn none() -> LeafIds<'a>
        ensures trees { (ts : List Term) → leaves_of ts result ≡ no_leaves }
        ensures within { (n : ℕ) → LeavesWithin n result }
        ensures variables { result.variables.now ≡ [] }
        ensures own { result.own.now ≡ [] }
        ensures locals { result.locals.now ≡ [] }
        ensures stack { result.stack.now ≡ [] }
        ensures globals { result.globals.now ≡ [] }
        ensures pages { result.pages ≡ None }
        ensures args { result.args.now ≡ [] }
        ensures results { result.result ≡ None }
        ensures index { result.index ≡ None }
        ensures item { result.item ≡ None }
    {
        LeafIds {
            variables: &[],
            own: &[],
            locals: &[],
            stack: &[],
            globals: &[],
            pages: None,
            args: &[],
            result: None,
            index: None,
            item: None,
        }
    }

    pub fn with_variables(self, variables: &'a [TermId]) -> LeafIds<'a>
        ensures { result ≡ record self.entry { variables = variables.entry } }
    {
        LeafIds { variables, ..self }
    }

    pub fn with_own(self, own: &'a [TermId]) -> LeafIds<'a>
        ensures { result ≡ record self.entry { own = own.entry } }
    {
        LeafIds { own, ..self }
    }

    pub fn with_locals(self, locals: &'a [(ValType, TermId)]) -> LeafIds<'a>
        ensures { result ≡ record self.entry { locals = locals.entry } }
    {
        LeafIds { locals, ..self }
    }

    pub fn with_stack(self, stack: &'a [(ValType, TermId)]) -> LeafIds<'a>
        ensures { result ≡ record self.entry { stack = stack.entry } }
    {
        LeafIds { stack, ..self }
    }

    pub fn with_globals(self, globals: &'a [Option<TermId>]) -> LeafIds<'a>
        ensures { result ≡ record self.entry { globals = globals.entry } }
    {
        LeafIds { globals, ..self }
    }

    pub fn with_pages(self, pages: Option<TermId>) -> LeafIds<'a>
        ensures { result ≡ record self.entry { pages = pages } }
    {
        LeafIds { pages, ..self }
    }

    pub fn with_args(self, args: &'a [TermId]) -> LeafIds<'a>
        ensures { result ≡ record self.entry { args = args.entry } }
    {
        LeafIds { args, ..self }
    }

    pub fn with_result(self, id: Option<TermId>) -> LeafIds<'a>
        ensures { result ≡ record self.entry { result = id } }
    {
        LeafIds { result: id, ..self }
    }

    /// The terms for `(index)` and `(item)`.
    pub fn with_cell(self, index: TermId, item: TermId) -> LeafIds<'a>
        ensures same { result ≡ record self.entry { index = Some index; item = Some item } }
        ensures within { (n : ℕ) → LeavesWithin n self.entry → index < n → item < n → LeavesWithin n result }
    {
        LeafIds {
            index: Some(index),
            item: Some(item),
            ..self
        }
    }
}

impl LeafIds<'_> {
    /// The position that is given for a variable, where one is.
    pub fn variable(&self, k: u32) -> Option<TermId>
        ensures { result ≡ slice_get self.now.variables.now k }
    {
        self.variables.get(k as usize).copied()
    }

    /// The position that is given for an own variable, where one is.
    pub fn own(&self, k: u32) -> Option<TermId>
        ensures { result ≡ slice_get self.now.own.now k }
    {
        self.own.get(k as usize).copied()
    }

    /// The position that is given for a place, where one is.
    pub fn place(&self, place: Place) -> Option<TermId>
        ensures { result ≡ place_id self.now place }
    {
        match place {
            Place::Local(k) => match self.locals.get(k as usize) {
                Some((_, id)) => Some(*id),
                None => None,
            },
            Place::Stack(k) => {
                let k = k as usize;
                if k < self.stack.len() {
                    Some(self.stack[self.stack.len() - 1 - k].1)
                } else {
                    None
                }
            }
            Place::Global(k) => match self.globals.get(k as usize) {
                Some(id) => *id,
                None => None,
            },
            Place::Pages => self.pages,
            Place::Arg(k) => self.args.get(k as usize).copied(),
            Place::Result => self.result,
            Place::Index => self.index,
            Place::Item => self.item,
        }
    }
}
