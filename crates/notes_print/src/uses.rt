// What instructions are given.

ghost use Rattle.std.specs.Prelude.{◌≡◌, ◌++◌, OnOk};
ghost use Rattle.notes_grammar.specs.Printed.{printed_more};
ghost use Rattle.notes_grammar.specs.Shapes.{use_of, trees_in};
ghost use Rattle.notes_print.specs.Plain.{plain, first_text};

use crate::chunks::{Assertions, Withs};
use crate::kinds::Smalls;
use crate::lists::{Print, print_items, print_one, print_two};
use crate::moves::Takes;
use notes::{Assertion, Take, Use, With};
use std::alloc::Global;
use wasm_values::{Bytes, OutOfMemory};

/// What an instruction is given, if anything.
#[tactic(auto, unfolding(notes_grammar::specs::Shapes::use_of))]
fn print_use(alloc: Global, out: &mut Bytes, used: &Use) -> Result<(), OutOfMemory>
    ensures { OnOk result (out.new ≡ out.old ++ first_text (use_of plain used.now)) }
{
    match used {
        Use::Nothing => Ok(()),
        Use::With(with) => Withs::print(alloc, out, with),
        Use::Cell(chunk) => print_one::<u32, Smalls>(alloc, out, "cell", chunk),
        Use::Safe(facts) => print_items::<u32, Smalls>(alloc, out, "safe", facts.as_slice()),
        Use::Trap(with) => print_one::<With, Withs>(alloc, out, "trap", with),
        Use::Take(take) => Takes::print(alloc, out, take),
        Use::Table(takes) => print_items::<Take, Takes>(alloc, out, "table", takes.as_slice()),
        Use::Both(invariant, pre) => {
            print_two::<With, Withs, With, Withs>(alloc, out, "both", invariant, pre)
        }
        Use::Label(assertion) => {
            print_one::<Assertion, Assertions>(alloc, out, "label", assertion)
        }
        Use::Loop(assertion, with) => {
            print_two::<Assertion, Assertions, With, Withs>(alloc, out, "loop", assertion, with)
        }
        Use::Skip(assertion, take) => {
            print_two::<Assertion, Assertions, Take, Takes>(alloc, out, "skip", assertion, take)
        }
    }
}

/// A space and what an instruction is given, or nothing.
#[tactic(auto, using(crate::proofs::UseLemmas::given_more, crate::proofs::UseLemmas::nothing_more))]
pub(crate) fn more_use(alloc: Global, out: &mut Bytes, used: &Use) -> Result<(), OutOfMemory>
    ensures { OnOk result (out.new ≡ out.old ++ printed_more (trees_in (use_of plain used.now))) }
{
    match used {
        Use::Nothing => Ok(()),
        _ => {
            out.push(b' ')?;
            print_use(alloc, out, used)
        }
    }
}
