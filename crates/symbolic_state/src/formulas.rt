ghost use Rattle.std.specs.Prelude.{◌≡◌, ◌+◌, ◌≤◌, max, List, IfOk};
ghost use Rattle.term_trees.specs.declared.term.Term.{Term};
ghost use Rattle.term_trees.specs.declared.term.Formula.TheVariants as formula;
ghost use Rattle.term_logic.specs.Table.{tree_at};
ghost use Rattle.term_logic.specs.Formulas.{formula_bound, formula_of};

use std::alloc::Global;
use term_logic::{Boxed, IdFormula, TermId};
use wasm_values::OutOfMemory;

/// Two terms are equal.
#[tactic(auto, using(crate::proofs::Facts::formula_shapes))]
pub fn equal(a: TermId, b: TermId) -> IdFormula
    ensures formula { (ts : List Term) → formula_of ts result ≡ formula.Eq (tree_at ts a) (tree_at ts b) }
    ensures within { formula_bound result ≡ max (a + 1) (b + 1) }
{
    IdFormula::Eq(a, b)
}

/// A term is at most another.
#[tactic(auto, using(crate::proofs::Facts::formula_shapes))]
pub fn at_most(a: TermId, b: TermId) -> IdFormula
    ensures formula { (ts : List Term) → formula_of ts result ≡ formula.Le (tree_at ts a) (tree_at ts b) }
    ensures within { formula_bound result ≡ max (a + 1) (b + 1) }
{
    IdFormula::Le(a, b)
}

/// A term is below another.
#[tactic(auto, using(crate::proofs::Facts::formula_shapes))]
pub fn below(a: TermId, b: TermId) -> IdFormula
    ensures formula { (ts : List Term) → formula_of ts result ≡ formula.Lt (tree_at ts a) (tree_at ts b) }
    ensures within { formula_bound result ≡ max (a + 1) (b + 1) }
{
    IdFormula::Lt(a, b)
}

/// A formula isn't true.
#[tactic(auto, using(crate::proofs::Facts::formula_shapes))]
pub fn denied(alloc: Global, f: IdFormula) -> Result<IdFormula, OutOfMemory>
    ensures formula { IfOk result (λ g. (ts : List Term) → formula_of ts g ≡ formula.Not (formula_of ts f)) }
    ensures within { IfOk result (λ g. formula_bound g ≡ formula_bound f) }
{
    Ok(IdFormula::Not(Boxed::new(alloc, f)?))
}

/// Two formulas in boxes.
fn boxed(
    alloc: Global,
    f: IdFormula,
    g: IdFormula,
) -> Result<(Boxed<IdFormula>, Boxed<IdFormula>), OutOfMemory>
    ensures { IfOk result (λ p. (p.0 ≡ f) × (p.1 ≡ g)) }
{
    let f = Boxed::new(alloc, f)?;
    Ok((f, Boxed::new(alloc, g)?))
}

/// Both formulas are true.
#[tactic(auto, using(crate::proofs::Facts::formula_shapes))]
pub fn both(alloc: Global, f: IdFormula, g: IdFormula) -> Result<IdFormula, OutOfMemory>
    ensures formula { IfOk result (λ h. (ts : List Term) → formula_of ts h ≡ formula.And (formula_of ts f) (formula_of ts g)) }
    ensures within { IfOk result (λ h. formula_bound h ≡ max (formula_bound f) (formula_bound g)) }
{
    let (f, g) = boxed(alloc, f, g)?;
    Ok(IdFormula::And(f, g))
}

/// One of the formulas is true.
#[tactic(auto, using(crate::proofs::Facts::formula_shapes))]
pub fn either(alloc: Global, f: IdFormula, g: IdFormula) -> Result<IdFormula, OutOfMemory>
    ensures formula { IfOk result (λ h. (ts : List Term) → formula_of ts h ≡ formula.Or (formula_of ts f) (formula_of ts g)) }
    ensures within { IfOk result (λ h. formula_bound h ≡ max (formula_bound f) (formula_bound g)) }
{
    let (f, g) = boxed(alloc, f, g)?;
    Ok(IdFormula::Or(f, g))
}
