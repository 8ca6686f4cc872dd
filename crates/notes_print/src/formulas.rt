// Formulas.

ghost use Rattle.std.specs.Prelude.{◌≡◌, ◌++◌, ◌∷◌, [], OnOk, codes, true};
ghost use Rattle.notes_grammar.specs.Printed.{printed_tree, printed_more};
ghost use Rattle.notes_grammar.specs.Shapes.{word, listed, trees_in, bare_formula};

use crate::bytes::{close, open, push_word};
use crate::lists::Print;
use crate::terms::print_over_two;
use std::alloc::Global;
use term_trees::Formula;
use wasm_values::{Bytes, OutOfMemory};

/// A space, and a formula.
#[cycle(formulas)]
#[tactic(auto, using(crate::proofs::ListLemmas::one_more))]
fn more_formula(alloc: Global, out: &mut Bytes, f: &Formula) -> Result<(), OutOfMemory>
    ensures { OnOk result (out.new ≡ out.old ++ printed_more (trees_in (bare_formula true f.now ∷ []))) }
{
    out.push(b' ')?;
    print_formula(alloc, out, f)
}

/// Two formulas, with a space before each.
#[cycle(formulas)]
#[tactic(auto, using(crate::proofs::ListLemmas::more_then))]
fn more_formulas(
    alloc: Global,
    out: &mut Bytes,
    f: &Formula,
    g: &Formula,
) -> Result<(), OutOfMemory>
    ensures { OnOk result (out.new ≡ out.old ++ printed_more (trees_in (bare_formula true f.now ∷ bare_formula true g.now ∷ []))) }
{
    more_formula(alloc, out, f)?;
    more_formula(alloc, out, g)
}

/// A formula that is no other.
#[cycle(formulas)]
#[tactic(auto, using(crate::proofs::ListLemmas::closed))]
fn print_not(alloc: Global, out: &mut Bytes, f: &Formula) -> Result<(), OutOfMemory>
    ensures { OnOk result (out.new ≡ out.old ++ printed_tree (listed (word (codes "not") ∷ bare_formula true f.now ∷ [])).tree) }
{
    open(out, "not")?;
    more_formula(alloc, out, f)?;
    close(out)
}

/// A word and two formulas.
#[cycle(formulas)]
#[tactic(auto, using(crate::proofs::ListLemmas::closed))]
fn print_over_formulas(
    alloc: Global,
    out: &mut Bytes,
    tag: &str,
    f: &Formula,
    g: &Formula,
) -> Result<(), OutOfMemory>
    ensures { OnOk result (out.new ≡ out.old ++ printed_tree (listed (word tag.now ∷ bare_formula true f.now ∷ bare_formula true g.now ∷ [])).tree) }
{
    open(out, tag)?;
    more_formulas(alloc, out, f, g)?;
    close(out)
}

/// A formula.
#[cycle(formulas)]
fn print_formula(alloc: Global, out: &mut Bytes, f: &Formula) -> Result<(), OutOfMemory>
    ensures { OnOk result (out.new ≡ out.old ++ printed_tree (bare_formula true f.now).tree) }
{
    match f {
        Formula::True => push_word(out, "true"),
        Formula::False => push_word(out, "false"),
        Formula::Eq(a, b) => print_over_two(alloc, out, "=", a, b),
        Formula::Le(a, b) => print_over_two(alloc, out, "<=", a, b),
        Formula::Lt(a, b) => print_over_two(alloc, out, "<", a, b),
        Formula::Not(f) => print_not(alloc, out, f.get()),
        Formula::And(f, g) => print_over_formulas(alloc, out, "and", f.get(), g.get()),
        Formula::Or(f, g) => print_over_formulas(alloc, out, "or", f.get(), g.get()),
        Formula::Imp(f, g) => print_over_formulas(alloc, out, "imp", f.get(), g.get()),
    }
}

/// Formulas.
pub(crate) struct Formulas;

#[tactic(auto, unfolding(notes_grammar::specs::Shapes::formula))]
impl Print<Formula> for Formulas {
    ghost use Rattle.std.specs.Prelude.{true};
    ghost use Rattle.notes_grammar.specs.Shapes.{formula};

    ghost shape = { formula true };

    fn print(alloc: Global, out: &mut Bytes, value: &Formula) -> Result<(), OutOfMemory> {
        print_formula(alloc, out, value)
    }
}
