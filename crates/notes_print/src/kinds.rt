// Numbers, places and references.

ghost use Rattle.std.specs.Prelude.{◌≡◌, ◌++◌, ◌∷◌, [], OnOk, codes};
ghost use Rattle.notes_grammar.specs.Printed.{printed_tree};
ghost use Rattle.notes_grammar.specs.Shapes.{small, whole, width, place, reference, word, listed, lettered};

use crate::bytes::{close, open, push_index, push_number, push_word};
use crate::lists::{Print, print_one};
use bitvector_rules::Ref;
use std::alloc::Global;
use term_trees::Place;
use wasm_values::{Bytes, OutOfMemory, Text};

/// Numbers from 0 to 4294967295.
pub(crate) struct Smalls;

impl Print<u32> for Smalls {
    ghost shape = { small };

    fn print(alloc: Global, out: &mut Bytes, value: &u32) -> Result<(), OutOfMemory> {
        push_number(alloc, out, *value as i128)
    }
}

/// Widths of cells.
pub(crate) struct Widths;

impl Print<u32> for Widths {
    ghost shape = { width };

    fn print(alloc: Global, out: &mut Bytes, value: &u32) -> Result<(), OutOfMemory> {
        push_number(alloc, out, *value as i128)
    }
}

/// Numbers.
pub(crate) struct Wholes;

impl Print<i128> for Wholes {
    ghost shape = { whole };

    fn print(alloc: Global, out: &mut Bytes, value: &i128) -> Result<(), OutOfMemory> {
        push_number(alloc, out, *value)
    }
}

/// Adds a list that is one word.
fn print_word(out: &mut Bytes, tag: &str) -> Result<(), OutOfMemory>
    ensures { OnOk result (out.new ≡ out.old ++ printed_tree (listed (word tag.now ∷ [])).tree) }
{
    open(out, tag)?;
    close(out)
}

/// Places.
pub(crate) struct Places;

impl Print<Place> for Places {
    ghost use Rattle.std.specs.Prelude.{true};

    ghost shape = { place true };

    fn print(alloc: Global, out: &mut Bytes, value: &Place) -> Result<(), OutOfMemory> {
        match value {
            Place::Local(k) => print_one::<u32, Smalls>(alloc, out, "local", k),
            Place::Stack(k) => print_one::<u32, Smalls>(alloc, out, "stack", k),
            Place::Global(k) => print_one::<u32, Smalls>(alloc, out, "global", k),
            Place::Arg(k) => print_one::<u32, Smalls>(alloc, out, "arg", k),
            Place::Pages => print_word(out, "pages"),
            Place::Result => print_word(out, "result"),
            Place::Index => print_word(out, "index"),
            Place::Item => print_word(out, "item"),
        }
    }
}

/// References of steps to formulas.
pub(crate) struct References;

impl Print<Ref> for References {
    ghost shape = { reference };

    fn print(alloc: Global, out: &mut Bytes, value: &Ref) -> Result<(), OutOfMemory> {
        match value {
            Ref::Hyp(k) => print_one::<u32, Smalls>(alloc, out, "h", k),
            Ref::Earlier(k) => print_one::<u32, Smalls>(alloc, out, "s", k),
        }
    }
}

/// Names of lemmas.
pub(crate) struct Names;

impl Print<Text> for Names {
    ghost use Rattle.notes_grammar.specs.Shapes.{name};

    ghost shape = { name };

    fn print(_alloc: Global, out: &mut Bytes, value: &Text) -> Result<(), OutOfMemory> {
        push_word(out, value.as_str())
    }
}

/// Adds a letter and a number.
pub(crate) fn print_variable(
    alloc: Global,
    out: &mut Bytes,
    letter: u8,
    k: u32,
) -> Result<(), OutOfMemory>
    ensures { OnOk result (out.new ≡ out.old ++ printed_tree (lettered letter k).tree) }
{
    out.push(letter)?;
    push_index(alloc, out, k)
}
