// What is to be entailed.

use notes::Assertion;
use term_logic::TermId;

/// What is to be entailed: an assertion, and the terms for `(arg i)`, for `(result)` and for its first own variables, for
/// which a `with` gives none.
#[derive(Clone, Copy)]
pub struct Wanted<'a> {
    pub assertion: &'a Assertion,
    pub args: &'a [TermId],
    pub result: Option<TermId>,
    pub fixed: &'a [TermId],
}
