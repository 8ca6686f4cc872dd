use crate::answer::Reason;
use wasm_values::LimitWord;

/// Why a part of the check refuses.
#[derive(Clone, Copy)]
pub enum Why {
    Reason(Reason),
    Limit(LimitWord),
}

/// A refusal with its place, and with its function where one is meant.
#[derive(Clone, Copy)]
pub struct Refusal {
    pub at: usize,
    pub function: Option<u32>,
    pub why: Why,
}
