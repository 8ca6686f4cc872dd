// The locals at a function's entry.

ghost use Rattle.wasm_values.specs.Answers.{Gives};
ghost use Rattle.outline_rules.specs.Entry.{params_entered, locals_entered, declared_locals};
ghost use Rattle.symbolic_state.specs.Refused.{refusal_of};
ghost use Rattle.outline_entry.specs.words.Parts.{local_entered};

use outline_setting::Setting;
use symbolic_state::{Refused, TrackedState};
use wasm_values::ValType;

/// Each parameter is a typed variable.
pub(crate) fn enter_params(state: &mut TrackedState, types: &[ValType]) -> Result<(), Refused>
    ensures { Gives refusal_of (λ _. state.new.state) result (params_entered types.now state.old.state) }
{
    for ty in types {
        state.add_typed_local(*ty)?;
    }
    Ok(())
}

/// One more local, which is 0.
fn enter_local(state: &mut TrackedState, ty: ValType) -> Result<(), Refused>
    ensures { Gives refusal_of (λ _. state.new.state) result (local_entered ty state.old.state) }
{
    let zero = state.number(0)?;
    state.add_local(ty, zero)
}

/// Other locals are 0.
fn enter_locals(state: &mut TrackedState, types: &[ValType]) -> Result<(), Refused>
    ensures { Gives refusal_of (λ _. state.new.state) result (locals_entered types.now state.old.state) }
{
    for ty in types {
        enter_local(state, *ty)?;
    }
    Ok(())
}

/// The locals that a function declares are 0. One that the module doesn't define has none.
pub(crate) fn enter_declared(
    state: &mut TrackedState,
    setting: &Setting<'_>,
    func: u32,
) -> Result<(), Refused>
    ensures { Gives refusal_of (λ _. state.new.state) result (locals_entered (declared_locals setting.now func) state.old.state) }
{
    match setting.defined_func(func) {
        Some(func) => enter_locals(state, func.locals.as_slice()),
        None => Ok(()),
    }
}
