ghost use Rattle.std.specs.Prelude.{◌≡◌, min, IsTrue};
ghost use Rattle.std.specs.List.{list_all};
ghost use Rattle.wasm_values.specs.Operators.{operands, num_operands};
ghost use Rattle.term_trees.specs.Terms.{well_formed, is_low_width, is_sext_pair, is_sgn_width};
ghost use Rattle.term_trees.specs.Formulas.{formula_nodes, well_formed_formula};
ghost use Rattle.bitvector_rules.specs.Steps.{is_admissible_formula, is_admissible, all_admissible};

use bitvector_rules::Step;
use term_logic::{Formula, Term, nodes};
use wasm_values::{IntOp, List, NumOp};

/// How many operands an operator of either width takes.
fn int_operands(op: IntOp) -> u32
    ensures { result ≡ operands op }
{
    match op {
        IntOp::Eqz | IntOp::Clz | IntOp::Ctz | IntOp::Popcnt => 1,
        _ => 2,
    }
}

/// How many operands an operator takes.
pub(crate) fn operands(op: NumOp) -> u32
    ensures { result ≡ num_operands op }
{
    match op {
        NumOp::W32(op) | NumOp::W64(op) => int_operands(op),
        _ => 1,
    }
}

fn is_low_width(k: u32) -> bool
    ensures { result ≡ is_low_width k }
{
    k == 8 || k == 16 || k == 32
}

fn is_sext_pair(k: u32, n: u32) -> bool
    ensures { result ≡ is_sext_pair k n }
{
    (n == 32 && (k == 8 || k == 16)) || (n == 64 && is_low_width(k))
}

fn is_sgn_width(n: u32) -> bool
    ensures { result ≡ is_sgn_width n }
{
    n == 32 || n == 64
}

fn is_well_formed(t: &Term) -> bool
    ensures { result ≡ well_formed t.now }
{
    match t {
        Term::Num(_) | Term::Var(_) | Term::Own(_) | Term::At(_) => true,
        Term::Add(a, b) | Term::Sub(a, b) | Term::Mul(a, b) => {
            is_well_formed(a.get()) && is_well_formed(b.get())
        }
        Term::One(op, a) => operands(*op) == 1 && is_well_formed(a.get()),
        Term::Two(op, a, b) => {
            operands(*op) == 2 && (is_well_formed(a.get()) && is_well_formed(b.get()))
        }
        Term::Low(k, a) => is_low_width(*k) && is_well_formed(a.get()),
        Term::Sext(k, n, a) => is_sext_pair(*k, *n) && is_well_formed(a.get()),
        Term::Sgn(n, a) => is_sgn_width(*n) && is_well_formed(a.get()),
    }
}

fn is_well_formed_formula(f: &Formula) -> bool
    ensures { result ≡ well_formed_formula f.now }
{
    match f {
        Formula::True | Formula::False => true,
        Formula::Eq(a, b) | Formula::Le(a, b) | Formula::Lt(a, b) => {
            is_well_formed(a) && is_well_formed(b)
        }
        Formula::Not(f) => is_well_formed_formula(f.get()),
        Formula::And(f, g) | Formula::Or(f, g) | Formula::Imp(f, g) => {
            is_well_formed_formula(f.get()) && is_well_formed_formula(g.get())
        }
    }
}

/// The nodes of a formula, or the last `usize` where there are more.
fn formula_nodes(f: &Formula) -> usize
    ensures { result ≡ min (formula_nodes f.now) usize.MAX }
{
    match f {
        Formula::True | Formula::False => 1,
        Formula::Eq(a, b) | Formula::Le(a, b) | Formula::Lt(a, b) => nodes(a)
            .saturating_add(nodes(b))
            .saturating_add(1),
        Formula::Not(f) => formula_nodes(f.get()).saturating_add(1),
        Formula::And(f, g) | Formula::Or(f, g) | Formula::Imp(f, g) => formula_nodes(f.get())
            .saturating_add(formula_nodes(g.get()))
            .saturating_add(1),
    }
}

/// Whether the formula may stand in a step.
pub(crate) fn is_admissible_formula(f: &Formula) -> bool
    ensures { IsTrue result → IsTrue (is_admissible_formula f.now) }
{
    formula_nodes(f) <= 4096 && is_well_formed_formula(f)
}

/// Whether each formula of the step is admissible, those of its sub-derivations included.
#[cycle(steps)]
pub(crate) fn is_admissible(step: &Step) -> bool
    ensures { IsTrue result → IsTrue (is_admissible step.now) }
{
    is_admissible_formula(&step.formula) && subs_are_admissible(step.subs.as_slice())
}

#[cycle(steps)]
fn subs_are_admissible(subs: &[List<Step>]) -> bool
    ensures { IsTrue result → IsTrue (list_all all_admissible subs.now) }
{
    let Some((sub, subs)) = subs.split_first() else {
        return true;
    };
    are_admissible(sub.as_slice()) && subs_are_admissible(subs)
}

/// Whether each formula of the steps is admissible.
#[cycle(steps)]
pub(crate) fn are_admissible(steps: &[Step]) -> bool
    ensures { IsTrue result → IsTrue (all_admissible steps.now) }
{
    let Some((step, steps)) = steps.split_first() else {
        return true;
    };
    is_admissible(step) && are_admissible(steps)
}
