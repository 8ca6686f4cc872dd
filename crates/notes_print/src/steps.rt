// Steps of derivations.

ghost use Rattle.std.specs.Prelude.{◌≡◌, ◌++◌, ◌∷◌, [], map, OnOk};
ghost use Rattle.bitvector_rules.specs.declared.step.Step.{out-Step};
ghost use Rattle.notes_grammar.specs.Printed.{printed_tree, printed_more};
ghost use Rattle.notes_grammar.specs.Shapes.{trees_in};
ghost use Rattle.notes_print.specs.Steps.{plain_step, plain_sub, step_front};

use crate::bytes::{close, open};
use crate::formulas::Formulas;
use crate::kinds::{References, Wholes};
use crate::lists::{Lists, Print, more_three};
use crate::names::rule_name;
use bitvector_rules::{Ref, Step};
use std::alloc::Global;
use term_trees::Formula;
use wasm_values::{Bytes, List, OutOfMemory};

/// The parts of a step before its sub-derivations, with a space before each.
fn more_front(alloc: Global, out: &mut Bytes, step: &Step) -> Result<(), OutOfMemory>
    ensures { OnOk result (out.new ≡ out.old ++ printed_more (trees_in (step_front (out-Step step.now)))) }
{
    more_three::<Formula, Formulas, List<Ref>, Lists<References>, List<i128>, Lists<Wholes>>(
        alloc,
        out,
        &step.formula,
        &step.refs,
        &step.numbers,
    )
}

/// The parts of a step, with a space before each.
#[cycle(steps)]
#[tactic(auto, using(crate::proofs::ListLemmas::more_then))]
fn more_parts(alloc: Global, out: &mut Bytes, step: &Step) -> Result<(), OutOfMemory>
    ensures { OnOk result (out.new ≡ out.old ++ printed_more (trees_in (step_front (out-Step step.now) ++ map plain_sub (out-Step step.now).subs))) }
{
    more_front(alloc, out, step)?;
    more_subs(alloc, out, step.subs.as_slice())
}

/// A step.
#[cycle(steps)]
fn print_step(alloc: Global, out: &mut Bytes, step: &Step) -> Result<(), OutOfMemory>
    ensures { OnOk result (out.new ≡ out.old ++ printed_tree (plain_step step.now).tree) }
{
    open(out, rule_name(step.rule))?;
    more_parts(alloc, out, step)?;
    close(out)
}

/// Sub-derivations, with a space before each.
#[cycle(steps)]
#[tactic(auto, using(crate::proofs::ListLemmas::items_step, crate::proofs::ListLemmas::items_end))]
fn more_subs(alloc: Global, out: &mut Bytes, subs: &[List<Step>]) -> Result<(), OutOfMemory>
    ensures { OnOk result (out.new ≡ out.old ++ printed_more (trees_in (map plain_sub subs.now))) }
{
    for sub in subs {
        more_sub(alloc, out, sub)?;
    }
    Ok(())
}

/// A space, and a sub-derivation.
#[cycle(steps)]
#[tactic(auto, using(crate::proofs::ListLemmas::one_more))]
fn more_sub(alloc: Global, out: &mut Bytes, sub: &List<Step>) -> Result<(), OutOfMemory>
    ensures { OnOk result (out.new ≡ out.old ++ printed_more (trees_in (plain_sub sub.now ∷ []))) }
{
    out.push(b' ')?;
    print_sub(alloc, out, sub.as_slice())
}

/// A sub-derivation.
#[cycle(steps)]
fn print_sub(alloc: Global, out: &mut Bytes, steps: &[Step]) -> Result<(), OutOfMemory>
    ensures { OnOk result (out.new ≡ out.old ++ printed_tree (plain_sub steps.now).tree) }
{
    out.push(b'(')?;
    if let [first, rest @ ..] = steps {
        print_step(alloc, out, first)?;
        more_steps(alloc, out, rest)?;
    }
    close(out)
}

/// Steps, with a space before each.
#[cycle(steps)]
#[tactic(auto, using(crate::proofs::ListLemmas::items_step, crate::proofs::ListLemmas::items_end))]
fn more_steps(alloc: Global, out: &mut Bytes, steps: &[Step]) -> Result<(), OutOfMemory>
    ensures { OnOk result (out.new ≡ out.old ++ printed_more (trees_in (map plain_step steps.now))) }
{
    for step in steps {
        more_step(alloc, out, step)?;
    }
    Ok(())
}

/// A space, and a step.
#[cycle(steps)]
#[tactic(auto, using(crate::proofs::ListLemmas::one_more))]
fn more_step(alloc: Global, out: &mut Bytes, step: &Step) -> Result<(), OutOfMemory>
    ensures { OnOk result (out.new ≡ out.old ++ printed_more (trees_in (plain_step step.now ∷ []))) }
{
    out.push(b' ')?;
    print_step(alloc, out, step)
}

/// Steps that are in no sub-derivation.
pub(crate) struct Steps;

impl Print<Step> for Steps {
    ghost use Rattle.std.specs.Prelude.{true};
    ghost use Rattle.notes_grammar.specs.Shapes.{step};

    ghost shape = { step true 0 };

    fn print(alloc: Global, out: &mut Bytes, value: &Step) -> Result<(), OutOfMemory> {
        print_step(alloc, out, value)
    }
}
