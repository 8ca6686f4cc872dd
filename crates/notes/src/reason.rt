//! Reasons of refusals.

/// Why an outline isn't accepted.
#[derive(Clone, Copy, Debug, PartialEq, Eq)]
pub enum Reason {
    Notes,
    Stable,
    Scope,
    Exposed,
    Use,
    Fact,
    Chunk,
    /// The position of the first step that is no instance, or the number of steps where the last one isn't the goal.
    Derivation(usize),
    Target,
    Initial,
}
