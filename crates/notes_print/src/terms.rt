// Terms.

ghost use Rattle.std.specs.Prelude.{◌≡◌, ◌++◌, ◌∷◌, [], OnOk, true};
ghost use Rattle.notes_grammar.specs.Printed.{printed_tree, printed_more};
ghost use Rattle.notes_grammar.specs.Shapes.{small, word, listed, trees_in, bare_term};
ghost use Rattle.notes_grammar.specs.Words.{num_name};

use crate::bytes::{close, open, push_number};
use crate::kinds::{Places, Smalls, print_variable};
use crate::lists::{Print, more_one, more_two};
use crate::names::open_op;
use std::alloc::Global;
use term_trees::Term;
use wasm_values::{Bytes, NumOp, OutOfMemory};

/// A space, and a term.
#[cycle(terms)]
#[tactic(auto, using(crate::proofs::ListLemmas::one_more))]
fn more_term(alloc: Global, out: &mut Bytes, a: &Term) -> Result<(), OutOfMemory>
    ensures { OnOk result (out.new ≡ out.old ++ printed_more (trees_in (bare_term true a.now ∷ []))) }
{
    out.push(b' ')?;
    print_term(alloc, out, a)
}

/// Two terms, with a space before each.
#[cycle(terms)]
#[tactic(auto, using(crate::proofs::ListLemmas::more_then))]
fn more_terms(alloc: Global, out: &mut Bytes, a: &Term, b: &Term) -> Result<(), OutOfMemory>
    ensures { OnOk result (out.new ≡ out.old ++ printed_more (trees_in (bare_term true a.now ∷ bare_term true b.now ∷ []))) }
{
    more_term(alloc, out, a)?;
    more_term(alloc, out, b)
}

/// A word and two terms.
#[cycle(terms)]
#[tactic(auto, using(crate::proofs::ListLemmas::closed))]
pub(crate) fn print_over_two(
    alloc: Global,
    out: &mut Bytes,
    tag: &str,
    a: &Term,
    b: &Term,
) -> Result<(), OutOfMemory>
    ensures { OnOk result (out.new ≡ out.old ++ printed_tree (listed (word tag.now ∷ bare_term true a.now ∷ bare_term true b.now ∷ [])).tree) }
{
    open(out, tag)?;
    more_terms(alloc, out, a, b)?;
    close(out)
}

/// An operator and its operand.
#[cycle(terms)]
#[tactic(auto, using(crate::proofs::ListLemmas::closed))]
fn print_op_one(alloc: Global, out: &mut Bytes, op: NumOp, a: &Term) -> Result<(), OutOfMemory>
    ensures { OnOk result (out.new ≡ out.old ++ printed_tree (listed (word (num_name op) ∷ bare_term true a.now ∷ [])).tree) }
{
    open_op(out, op)?;
    more_term(alloc, out, a)?;
    close(out)
}

/// An operator and its operands.
#[cycle(terms)]
#[tactic(auto, using(crate::proofs::ListLemmas::closed))]
fn print_op_two(
    alloc: Global,
    out: &mut Bytes,
    op: NumOp,
    a: &Term,
    b: &Term,
) -> Result<(), OutOfMemory>
    ensures { OnOk result (out.new ≡ out.old ++ printed_tree (listed (word (num_name op) ∷ bare_term true a.now ∷ bare_term true b.now ∷ [])).tree) }
{
    open_op(out, op)?;
    more_terms(alloc, out, a, b)?;
    close(out)
}

/// A number of bits and a term, with a space before each.
#[cycle(terms)]
#[tactic(auto, using(crate::proofs::ListLemmas::more_then))]
fn more_width(alloc: Global, out: &mut Bytes, n: u32, a: &Term) -> Result<(), OutOfMemory>
    ensures { OnOk result (out.new ≡ out.old ++ printed_more (trees_in (small n ∷ bare_term true a.now ∷ []))) }
{
    more_one::<u32, Smalls>(alloc, out, &n)?;
    more_term(alloc, out, a)
}

/// A word, a number of bits and a term.
#[cycle(terms)]
#[tactic(auto, using(crate::proofs::ListLemmas::closed))]
fn print_width(
    alloc: Global,
    out: &mut Bytes,
    tag: &str,
    n: u32,
    a: &Term,
) -> Result<(), OutOfMemory>
    ensures { OnOk result (out.new ≡ out.old ++ printed_tree (listed (word tag.now ∷ small n ∷ bare_term true a.now ∷ [])).tree) }
{
    open(out, tag)?;
    more_width(alloc, out, n, a)?;
    close(out)
}

/// Two numbers of bits and a term, with a space before each.
#[cycle(terms)]
#[tactic(auto, using(crate::proofs::ListLemmas::more_then))]
fn more_widths(alloc: Global, out: &mut Bytes, k: u32, n: u32, a: &Term) -> Result<(), OutOfMemory>
    ensures { OnOk result (out.new ≡ out.old ++ printed_more (trees_in (small k ∷ small n ∷ bare_term true a.now ∷ []))) }
{
    more_two::<u32, Smalls, u32, Smalls>(alloc, out, &k, &n)?;
    more_term(alloc, out, a)
}

/// A word, two numbers of bits and a term.
#[cycle(terms)]
#[tactic(auto, using(crate::proofs::ListLemmas::closed))]
fn print_widths(
    alloc: Global,
    out: &mut Bytes,
    tag: &str,
    k: u32,
    n: u32,
    a: &Term,
) -> Result<(), OutOfMemory>
    ensures { OnOk result (out.new ≡ out.old ++ printed_tree (listed (word tag.now ∷ small k ∷ small n ∷ bare_term true a.now ∷ [])).tree) }
{
    open(out, tag)?;
    more_widths(alloc, out, k, n, a)?;
    close(out)
}

/// A term.
#[cycle(terms)]
fn print_term(alloc: Global, out: &mut Bytes, t: &Term) -> Result<(), OutOfMemory>
    ensures { OnOk result (out.new ≡ out.old ++ printed_tree (bare_term true t.now).tree) }
{
    match t {
        Term::Num(n) => push_number(alloc, out, *n),
        Term::Var(k) => print_variable(alloc, out, b'v', *k),
        Term::Own(k) => print_variable(alloc, out, b'x', *k),
        Term::At(place) => Places::print(alloc, out, place),
        Term::Add(a, b) => print_over_two(alloc, out, "+", a.get(), b.get()),
        Term::Sub(a, b) => print_over_two(alloc, out, "-", a.get(), b.get()),
        Term::Mul(a, b) => print_over_two(alloc, out, "*", a.get(), b.get()),
        Term::One(op, a) => print_op_one(alloc, out, *op, a.get()),
        Term::Two(op, a, b) => print_op_two(alloc, out, *op, a.get(), b.get()),
        Term::Low(k, a) => print_width(alloc, out, "low", *k, a.get()),
        Term::Sext(k, n, a) => print_widths(alloc, out, "sext", *k, *n, a.get()),
        Term::Sgn(n, a) => print_width(alloc, out, "sgn", *n, a.get()),
    }
}

/// Terms.
pub(crate) struct Terms;

#[tactic(auto, unfolding(notes_grammar::specs::Shapes::term))]
impl Print<Term> for Terms {
    ghost use Rattle.std.specs.Prelude.{true};
    ghost use Rattle.notes_grammar.specs.Shapes.{term};

    ghost shape = { term true };

    fn print(alloc: Global, out: &mut Bytes, value: &Term) -> Result<(), OutOfMemory> {
        print_term(alloc, out, value)
    }
}
