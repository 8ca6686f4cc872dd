//! The tests of the invariant and of contracts.

ghost use Rattle.std.specs.Prelude.{◌≡◌, ◌<◌, ◌+◌, length};
ghost use Rattle.wasm_values.specs.Answers.{Gives};
ghost use Rattle.wasm_typing.specs.Valid.{func_types_of};
ghost use Rattle.outline_rules.specs.Tests.{unless, invariant_tested, pre_tested, post_tested, contract_tested};
ghost use Rattle.outline_rules.specs.Tests.{contract_tested_by};
ghost use Rattle.std.specs.Prelude.{Some};
ghost use Rattle.outline_setting.specs.Reasons.{refusal_for};

use crate::reasons::{Leaves, assertion_reason};
use notes::{Contract, Reason};
use outline_setting::Setting;
use wasm_syntax::FuncType;

/// A reason, where there is one, is the refusal.
fn unless(reason: Option<Reason>) -> Result<(), Reason>
    ensures { Gives refusal_for (λ _. tt) result (unless reason) }
{
    match reason {
        Some(why) => Err(why),
        None => Ok(()),
    }
}

/// The invariant has only own variables, stable globals, and pages and chunks of a private memory.
pub fn invariant_tested(setting: &Setting<'_>) -> Result<(), Reason>
    ensures { Gives refusal_for (λ _. tt) result (invariant_tested setting.now) }
{
    let invariant = setting.invariant_of();
    let leaves = Leaves {
        setting,
        own: invariant.own as u64,
        args: 0,
        has_result: false,
    };
    unless(assertion_reason(&leaves, invariant))
}

/// The same of a precondition, in which `(arg i)` of a parameter may stand too.
fn pre_tested(setting: &Setting<'_>, ty: &FuncType, contract: &Contract) -> Result<(), Reason>
    ensures { Gives refusal_for (λ _. tt) result (pre_tested setting.now ty.now contract.now) }
{
    let leaves = Leaves {
        setting,
        own: contract.pre.own as u64,
        args: ty.params.len(),
        has_result: false,
    };
    unless(assertion_reason(&leaves, &contract.pre))
}

/// The same of a postcondition, in which the result and the own variables of the precondition may stand too.
fn post_tested(setting: &Setting<'_>, ty: &FuncType, contract: &Contract) -> Result<(), Reason>
    ensures { Gives refusal_for (λ _. tt) result (post_tested setting.now ty.now contract.now) }
{
    let leaves = Leaves {
        setting,
        own: contract.pre.own as u64 + contract.post.own as u64,
        args: ty.params.len(),
        has_result: ty.results.len() > 0,
    };
    unless(assertion_reason(&leaves, &contract.post))
}

/// The tests of a contract that there is.
fn tested_by(setting: &Setting<'_>, func: u32, contract: &Contract) -> Result<(), Reason>
    requires { func < length (func_types_of setting.now.code) }
    ensures { Gives refusal_for (λ _. tt) result (contract_tested_by setting.now func (Some contract.now)) }
{
    if setting.is_exposed(func) {
        return Err(Reason::Exposed);
    }
    let ty = setting.func_type(func);
    match pre_tested(setting, ty, contract) {
        Ok(()) => post_tested(setting, ty, contract),
        Err(why) => Err(why),
    }
}

/// An exposed function with a contract is `exposed`; then its contract is tested.
pub fn contract_tested(setting: &Setting<'_>, func: u32) -> Result<(), Reason>
    requires { func < length (func_types_of setting.now.code) }
    ensures { Gives refusal_for (λ _. tt) result (contract_tested setting.now func) }
{
    match setting.contract_of(func) {
        Some(contract) => tested_by(setting, func, contract),
        None => Ok(()),
    }
}
