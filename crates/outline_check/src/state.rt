ghost use Rattle.std.specs.Prelude.{◌≡◌, [], ◌∷◌, length, OnOk, MatchOption};

use std::alloc::Global;
use std::marker::Model;
use wasm_values::{List, OutOfMemory};

/// A term of a state: a number or a variable.
#[derive(Clone, Copy)]
pub enum Term {
    Number(i128),
    Variable(u32),
}

/// A fact of a state: `(= A B)` or `(<= A B)`.
#[derive(Clone, Copy)]
pub enum Fact {
    Equal(Term, Term),
    AtMost(Term, Term),
}

/// Terms that contracts see as a list with the top first.
#[derive(Drop)]
pub struct Stack {
    items: List<Term>,
}

impl Model for Stack {
    ghost use Rattle.std.specs.Prelude.{List, reverse};
    ghost use Rattle.std.specs.Coded.{coded_list};
    ghost use Rattle.outline_check.specs.declared.state.Term.{Term};
    ghost use Rattle.outline_check.specs.contracts.state.Term as of_term;

    ghost Value = { List Term };

    ghost coded = { coded_list of_term.the_row.coded };

    ghost view = { λ s. reverse s.items };
}

impl Stack {
    pub fn new(alloc: Global) -> Stack
        ensures { result ≡ [] }
    {
        Stack {
            items: List::new(alloc),
        }
    }

    pub fn len(&self) -> usize
        ensures { result ≡ length self.now }
    {
        self.items.len()
    }

    pub fn push(&mut self, term: Term) -> Result<(), OutOfMemory>
        ensures { OnOk result (self.new ≡ term ∷ self.old) }
    {
        self.items.push(term)
    }

    pub fn pop(&mut self) -> Option<Term>
        ensures { MatchOption result ((self.old ≡ []) × (self.new ≡ [])) (λ top. self.old ≡ top ∷ self.new) }
    {
        self.items.pop()
    }
}

/// What is known before an instruction: facts, and a term for each global and operand.
#[derive(Drop)]
pub struct State {
    pub variables: u32,
    pub facts: List<Fact>,
    pub globals: List<Term>,
    pub operands: Stack,
}
