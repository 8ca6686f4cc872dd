// Chunks, assertions and what entails them.

use crate::formulas::Formulas;
use crate::kinds::{Smalls, Widths};
use crate::lists::{Lists, Print, print_four, print_one, print_three, print_two};
use crate::terms::Terms;
use notes::{Assertion, Chunk, Contract, With};
use std::alloc::Global;
use term_trees::{Formula, Term};
use wasm_values::{Bytes, List, OutOfMemory};

/// Chunks.
pub(crate) struct Chunks;

#[tactic(auto, unfolding(notes_grammar::specs::Shapes::chunk))]
impl Print<Chunk> for Chunks {
    ghost use Rattle.std.specs.Prelude.{true};
    ghost use Rattle.notes_grammar.specs.Shapes.{chunk};

    ghost shape = { chunk true };

    fn print(alloc: Global, out: &mut Bytes, value: &Chunk) -> Result<(), OutOfMemory> {
        match value {
            Chunk::Cell { width, at, value } => {
                print_three::<u32, Widths, Term, Terms, Term, Terms>(
                    alloc, out, "cell", width, at, value,
                )
            }
            Chunk::Region { at, len } => {
                print_two::<Term, Terms, Term, Terms>(alloc, out, "region", at, len)
            }
            Chunk::Row {
                width,
                at,
                count,
                each,
            } => print_four::<u32, Widths, Term, Terms, Term, Terms, Formula, Formulas>(
                alloc, out, "row", width, at, count, each,
            ),
        }
    }
}

/// Assertions.
pub(crate) struct Assertions;

#[tactic(auto, unfolding(notes_grammar::specs::Shapes::assertion))]
impl Print<Assertion> for Assertions {
    ghost use Rattle.std.specs.Prelude.{true};
    ghost use Rattle.notes_grammar.specs.Shapes.{assertion};

    ghost shape = { assertion true };

    fn print(alloc: Global, out: &mut Bytes, value: &Assertion) -> Result<(), OutOfMemory> {
        print_three::<u32, Smalls, List<Formula>, Lists<Formulas>, List<Chunk>, Lists<Chunks>>(
            alloc,
            out,
            "assert",
            &value.own,
            &value.formulas,
            &value.chunks,
        )
    }
}

/// Preconditions.
pub(crate) struct Pres;

impl Print<Assertion> for Pres {
    ghost use Rattle.std.specs.Prelude.{true, ◌∷◌, [], codes};
    ghost use Rattle.notes_grammar.specs.Shapes.{assertion, listed, word};

    ghost shape = { λ a. listed (word (codes "pre") ∷ assertion true a ∷ []) };

    fn print(alloc: Global, out: &mut Bytes, value: &Assertion) -> Result<(), OutOfMemory> {
        print_one::<Assertion, Assertions>(alloc, out, "pre", value)
    }
}

/// Postconditions.
pub(crate) struct Posts;

impl Print<Assertion> for Posts {
    ghost use Rattle.std.specs.Prelude.{true, ◌∷◌, [], codes};
    ghost use Rattle.notes_grammar.specs.Shapes.{assertion, listed, word};

    ghost shape = { λ a. listed (word (codes "post") ∷ assertion true a ∷ []) };

    fn print(alloc: Global, out: &mut Bytes, value: &Assertion) -> Result<(), OutOfMemory> {
        print_one::<Assertion, Assertions>(alloc, out, "post", value)
    }
}

/// Contracts.
pub(crate) struct Contracts;

impl Print<Contract> for Contracts {
    ghost use Rattle.notes_print.specs.Plain.{plain_contract};

    ghost shape = { plain_contract };

    fn print(alloc: Global, out: &mut Bytes, value: &Contract) -> Result<(), OutOfMemory> {
        print_two::<Assertion, Pres, Assertion, Posts>(
            alloc,
            out,
            "contract",
            &value.pre,
            &value.post,
        )
    }
}

/// What says how a state entails an assertion.
pub(crate) struct Withs;

#[tactic(auto, unfolding(notes_grammar::specs::Shapes::with))]
impl Print<With> for Withs {
    ghost use Rattle.std.specs.Prelude.{true};
    ghost use Rattle.notes_grammar.specs.Shapes.{with};

    ghost shape = { with true };

    fn print(alloc: Global, out: &mut Bytes, value: &With) -> Result<(), OutOfMemory> {
        print_three::<List<Term>, Lists<Terms>, List<u32>, Lists<Smalls>, List<u32>, Lists<Smalls>>(
            alloc,
            out,
            "with",
            &value.terms,
            &value.facts,
            &value.chunks,
        )
    }
}
