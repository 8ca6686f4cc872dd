use crate::term::Term;
use wasm_values::List;

/// A linear normal form: the sum of the constant and of the atoms, each times its coefficient.
///
/// The atoms stand in the order of their first occurrence in the term, and no coefficient is 0.
#[derive(Debug, Drop)]
pub struct Normal {
    pub constant: i128,
    pub parts: List<(Term, i128)>,
}
