use wasm_values::List;

/// A derivation rule.
#[derive(Clone, Copy, Debug, PartialEq, Eq)]
pub enum Rule {
    Hyp,
    Eval,
}

/// What a step of a derivation refers to: a hypothesis, or the conclusion of an earlier step.
#[derive(Clone, Copy, Debug, PartialEq, Eq)]
pub enum Ref {
    Hyp(u32),
    Earlier(u32),
}

/// `(= (global K) NUMBER)`
#[derive(Clone, Copy, Debug, PartialEq, Eq)]
pub struct Formula {
    pub global: u32,
    pub value: i128,
}

/// One step of a derivation, with its conclusion.
#[derive(Debug, Drop)]
pub struct Step {
    pub rule: Rule,
    pub formula: Formula,
    pub refs: List<Ref>,
}

/// The formulas of an assertion.
#[derive(Debug, Drop)]
pub struct Assertion {
    pub formulas: List<Formula>,
}

/// A fact of the state for each formula of an assertion, by its number.
#[derive(Debug, Drop)]
pub struct With {
    pub facts: List<u32>,
}

/// What is done to a state before an instruction.
#[derive(Debug, Drop)]
pub enum Move {
    /// Adds a formula that the steps derive from the facts.
    Have(Formula, List<Step>),
}

/// What an instruction is given.
#[derive(Debug, Drop)]
pub enum Use {
    Nothing,
    With(With),
}

/// What is said at one instruction, by its number.
#[derive(Debug, Drop)]
pub struct Note {
    pub at: u32,
    pub moves: List<Move>,
    pub used: Use,
}

/// The notes of one function, by its number.
#[derive(Debug, Drop)]
pub struct FuncNotes {
    pub func: u32,
    pub notes: List<Note>,
}

/// How the invariant is met initially.
#[derive(Debug, Drop)]
pub struct Initial {
    pub moves: List<Move>,
    pub with: With,
}

/// The notes of a module.
#[derive(Debug, Drop)]
pub struct Notes {
    pub invariant: Assertion,
    pub initial: Initial,
    pub funcs: List<FuncNotes>,
}
