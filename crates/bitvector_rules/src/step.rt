ghost use Rattle.std.specs.Prelude.{◌≡◌, IfOk};
ghost use Rattle.bitvector_rules.specs.declared.step.Step.{out-Step};

use std::alloc::Global;
use term_logic::Formula;
use wasm_values::{Duplicate, List, OutOfMemory};

/// A rule of derivations.
#[derive(Clone, Copy, Debug)]
pub enum Rule {
    Hyp,
    True,
    And,
    Left,
    Right,
    Orl,
    Orr,
    Cases,
    Assume,
    Apply,
    Contra,
    Refute,
    Clash,
    Explode,
    Refl,
    Rewrite,
    Eval,
    Linear,
    Floor,
    Ceil,
    Order,
    Notle,
    Notlt,
    Mulpos,
    Range,
    Add,
    Addwrap,
    Sub,
    Subwrap,
    Mul,
    Divu,
    Divs,
    Test,
    Tests,
    Sgn,
    Shift,
    Mask,
    Widen,
}

/// A formula that a step takes as a premise: a hypothesis, or the conclusion of an earlier step of the same list.
#[derive(Clone, Copy, Debug)]
pub enum Ref {
    Hyp(u32),
    Earlier(u32),
}

/// One step of a derivation, with the conclusion that it draws.
#[derive(Debug, Drop)]
pub struct Step {
    pub rule: Rule,
    pub formula: Formula,
    pub refs: List<Ref>,
    pub numbers: List<i128>,
    pub subs: List<List<Step>>,
}

/// A list that equals these items.
fn copy_items<T: Copy>(alloc: Global, items: &[T]) -> Result<List<T>, OutOfMemory>
    ensures { IfOk result (λ l. l ≡ items.now) }
{
    match Vec::from_slice(alloc, items) {
        Ok(items) => Ok(List::from_vec(items)),
        Err(_) => Err(OutOfMemory),
    }
}

#[cycle(copy)]
fn copy_steps(alloc: Global, steps: &[Step]) -> Result<List<Step>, OutOfMemory>
    ensures { IfOk result (λ l. l ≡ steps.now) }
{
    let mut copied = List::new(alloc);
    for step in steps {
        copied.push(step.copy(alloc)?)?;
    }
    Ok(copied)
}

#[cycle(copy)]
fn copy_subs(alloc: Global, subs: &[List<Step>]) -> Result<List<List<Step>>, OutOfMemory>
    ensures { IfOk result (λ l. l ≡ subs.now) }
{
    let mut copied = List::new(alloc);
    for steps in subs {
        copied.push(copy_steps(alloc, steps.as_slice())?)?;
    }
    Ok(copied)
}

impl Step {
    /// A step with these sub-derivations that is like this one in all else.
    fn copy_with(&self, alloc: Global, subs: List<List<Step>>) -> Result<Step, OutOfMemory>
        ensures { IfOk result (λ s. out-Step s ≡ record (out-Step self.now) { subs = subs }) }
    {
        let refs = copy_items(alloc, self.refs.as_slice())?;
        let numbers = copy_items(alloc, self.numbers.as_slice())?;
        let formula = self.formula.copy(alloc)?;
        Ok(Step {
            rule: self.rule,
            formula,
            refs,
            numbers,
            subs,
        })
    }

    /// A step that equals this one.
    #[cycle(copy)]
    pub fn copy(&self, alloc: Global) -> Result<Step, OutOfMemory>
        ensures { IfOk result (λ s. s ≡ self.now) }
    {
        let subs = copy_subs(alloc, self.subs.as_slice())?;
        self.copy_with(alloc, subs)
    }
}

impl Duplicate for Step {
    fn duplicate(&self, alloc: Global) -> Result<Step, OutOfMemory> {
        self.copy(alloc)
    }
}
