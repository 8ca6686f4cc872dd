// Moves and takes.

ghost use Rattle.std.specs.Prelude.{◌≡◌, ◌++◌, ◌∷◌, [], OnOk, true};
ghost use Rattle.notes_grammar.specs.Printed.{printed_tree};
ghost use Rattle.notes_grammar.specs.Shapes.{heap_move, small, term, word, listed};

use crate::chunks::Withs;
use crate::formulas::Formulas;
use crate::kinds::{Names, Places, Smalls, Widths};
use crate::lists::{
    Lists, Print, print_four, print_one, print_one_items, print_three, print_two, print_two_items,
};
use crate::steps::Steps;
use crate::terms::Terms;
use bitvector_rules::Step;
use notes::{HeapMove, Move, Take, With};
use std::alloc::Global;
use term_trees::{Formula, Place, Term};
use wasm_values::{Bytes, List, OutOfMemory, Text};

/// A move on three things by their numbers.
fn print_numbers(
    alloc: Global,
    out: &mut Bytes,
    tag: &str,
    c: u32,
    d: u32,
    f: u32,
) -> Result<(), OutOfMemory>
    ensures { OnOk result (out.new ≡ out.old ++ printed_tree (listed (word tag.now ∷ small c ∷ small d ∷ small f ∷ [])).tree) }
{
    print_three::<u32, Smalls, u32, Smalls, u32, Smalls>(alloc, out, tag, &c, &d, &f)
}

/// Another term for a part of a chunk, by a fact.
fn print_other(
    alloc: Global,
    out: &mut Bytes,
    tag: &str,
    c: u32,
    t: &Term,
    f: u32,
) -> Result<(), OutOfMemory>
    ensures { OnOk result (out.new ≡ out.old ++ printed_tree (listed (word tag.now ∷ small c ∷ term true t.now ∷ small f ∷ [])).tree) }
{
    print_three::<u32, Smalls, Term, Terms, u32, Smalls>(alloc, out, tag, &c, t, &f)
}

/// A chunk taken apart at a term, by two facts.
fn print_apart(
    alloc: Global,
    out: &mut Bytes,
    tag: &str,
    c: u32,
    t: &Term,
    facts: (u32, u32),
) -> Result<(), OutOfMemory>
    ensures { OnOk result (out.new ≡ out.old ++ printed_tree (listed (word tag.now ∷ small c ∷ term true t.now ∷ small facts.0 ∷ small facts.1 ∷ [])).tree) }
{
    let (f, g) = facts;
    print_four::<u32, Smalls, Term, Terms, u32, Smalls, u32, Smalls>(alloc, out, tag, &c, t, &f, &g)
}

/// A move on one chunk.
fn print_chunk(alloc: Global, out: &mut Bytes, tag: &str, c: u32) -> Result<(), OutOfMemory>
    ensures { OnOk result (out.new ≡ out.old ++ printed_tree (listed (word tag.now ∷ small c ∷ [])).tree) }
{
    print_one::<u32, Smalls>(alloc, out, tag, &c)
}

/// A move on chunks.
#[tactic(auto, unfolding(notes_grammar::specs::Shapes::heap_move))]
fn print_heap_move(alloc: Global, out: &mut Bytes, value: &HeapMove) -> Result<(), OutOfMemory>
    ensures { OnOk result (out.new ≡ out.old ++ printed_tree (heap_move true value.now).tree) }
{
    match value {
        HeapMove::Split(c, t, f, g) => print_apart(alloc, out, "split", *c, t, (*f, *g)),
        HeapMove::Merge(c, d, f) => print_numbers(alloc, out, "merge", *c, *d, *f),
        HeapMove::Forget(c) => print_chunk(alloc, out, "forget", *c),
        HeapMove::View(c) => print_chunk(alloc, out, "view", *c),
        HeapMove::Halve(c) => print_chunk(alloc, out, "halve", *c),
        HeapMove::Unite(c, d, f) => print_numbers(alloc, out, "unite", *c, *d, *f),
        HeapMove::Readdr(c, t, f) => print_other(alloc, out, "readdr", *c, t, *f),
        HeapMove::Reval(c, t, f) => print_other(alloc, out, "reval", *c, t, *f),
        HeapMove::Relen(c, t, f) => print_other(alloc, out, "relen", *c, t, *f),
        HeapMove::Pick(c, t, f, g) => print_apart(alloc, out, "pick", *c, t, (*f, *g)),
        HeapMove::Join(c, d, f) => print_numbers(alloc, out, "join", *c, *d, *f),
        HeapMove::Enrow(c, each, f) => {
            print_three::<u32, Smalls, Formula, Formulas, u32, Smalls>(
                alloc, out, "enrow", c, each, f,
            )
        }
        HeapMove::Rows(c, width, each) => {
            print_three::<u32, Smalls, u32, Widths, Formula, Formulas>(
                alloc, out, "rows", c, width, each,
            )
        }
    }
}

/// Moves.
pub(crate) struct Moves;

impl Print<Move> for Moves {
    ghost use Rattle.notes_grammar.specs.Shapes.{move};
    ghost use Rattle.notes_print.specs.Plain.{plain};

    ghost shape = { move plain };

    fn print(alloc: Global, out: &mut Bytes, value: &Move) -> Result<(), OutOfMemory> {
        match value {
            Move::Have(formula, steps) => print_one_items::<Formula, Formulas, Step, Steps>(
                alloc,
                out,
                "have",
                formula,
                steps.as_slice(),
            ),
            Move::Name(place) => print_one::<Place, Places>(alloc, out, "name", place),
            Move::Let(term) => print_one::<Term, Terms>(alloc, out, "let", term),
            Move::Put(place, term, fact) => {
                print_three::<Place, Places, Term, Terms, u32, Smalls>(
                    alloc, out, "put", place, term, fact,
                )
            }
            Move::Heap(heap_move) => print_heap_move(alloc, out, heap_move),
            Move::Each(chunk, formula, steps) => {
                print_two_items::<u32, Smalls, Formula, Formulas, Step, Steps>(
                    alloc,
                    out,
                    "each",
                    chunk,
                    formula,
                    steps.as_slice(),
                )
            }
            Move::Lemma(name, terms, facts) => {
                print_three::<Text, Names, List<Term>, Lists<Terms>, List<u32>, Lists<Smalls>>(
                    alloc, out, "use", name, terms, facts,
                )
            }
        }
    }
}

/// Takes.
pub(crate) struct Takes;

#[tactic(auto, unfolding(notes_grammar::specs::Shapes::take))]
impl Print<Take> for Takes {
    ghost use Rattle.notes_grammar.specs.Shapes.{take};
    ghost use Rattle.notes_print.specs.Plain.{plain};

    ghost shape = { take plain };

    fn print(alloc: Global, out: &mut Bytes, value: &Take) -> Result<(), OutOfMemory> {
        print_two::<List<Move>, Lists<Moves>, With, Withs>(
            alloc,
            out,
            "take",
            &value.moves,
            &value.with,
        )
    }
}
