//! Exposure of globals, memory, table and functions.

use wasm_values::List;

/// Whether other instances can write a global: an immutable one never, a private one is defined, mutable and not exported.
#[derive(Clone, Copy)]
pub enum Stability {
    Unstable,
    Immutable,
    Private,
}

/// What of a module others can reach.
#[derive(Drop)]
pub struct Exposure {
    /// For each global, imports first.
    pub globals: List<Stability>,
    /// Whether a memory is defined and not exported.
    pub memory: bool,
    /// Whether a table is defined and not exported.
    pub table: bool,
    /// For each function, imports first, whether others can call it.
    pub exposed: List<bool>,
}
