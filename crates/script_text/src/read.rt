//! Reading scripts, construct by construct.

ghost use Rattle.std.specs.Prelude.{◌≡◌, ◌⊎◌, ◌≤◌, ◌∷◌, ◌++◌, false, [], Ok, Err, IfOk, IfErr, OnOk};
ghost use Rattle.sexp_text.specs.declared.fault.TextFault.{TextFault as Fault};
ghost use Rattle.sexp_text.specs.Reading.{Gives};
ghost use Rattle.script_text.specs.declared.script.Script.{Script as Spelled};
ghost use Rattle.script_text.specs.Names.{is_among};
ghost use Rattle.script_text.specs.Grammar.{modules_of, instances_of, made_by};
ghost use Rattle.script_text.specs.Reading.{origin_in, bits_in, value_in, all_from, load_in, new_in, call_in, action_in, loads_from, actions_from, script_in};
ghost use Rattle.script_text.specs.Spelling.{ScriptSpells, ScriptFault};
ghost use Rattle.script_text.specs.words.{IsNewAmong, IsRead};

use crate::names::NameTable;
use crate::parts::{end, fresh, is_tagged, known, next, number, string, tagged};
use crate::script::{Action, Load, Origin, Script};
use sexp_text::{Sexp, TextFault, read_sexp};
use std::alloc::Global;
use wasm_values::{List, OutOfMemory, Text, Val};

/// The greatest number of steps of a script.
const MAX_STEPS: u64 = 100_000_000;

// FROM.
#[tactic(auto, unfolding(crate::specs::Reading::origin_in))]
fn read_origin(alloc: Global, made: &NameTable, s: &Sexp) -> Result<Origin, TextFault>
    ensures { Gives (λ x. x) result (origin_in made.now s.now) }
{
    let (parts, close) = tagged("from", s)?;
    let (first, parts) = next(close, parts)?;
    let instance = known(made, first)?;
    let (second, parts) = next(close, parts)?;
    let export = string(second)?;
    end(parts)?;
    Ok(Origin {
        instance: Text::from_str(alloc, instance)?,
        export: Text::from_str(alloc, export)?,
        at: second.at,
    })
}

// The number of a VALUE, the last part of a list.
#[tactic(auto, unfolding(crate::specs::Reading::bits_in))]
fn read_bits(greatest: u64, parts: &[Sexp], close: usize) -> Result<u64, TextFault>
    ensures given { Gives (λ x. x) result (bits_in greatest (parts.now, close)) }
    ensures within { IfOk result (λ n. n ≤ greatest) }
{
    let (first, parts) = next(close, parts)?;
    let bits = number(0, greatest, first)?;
    end(parts)?;
    Ok(bits)
}

// VALUE.
#[tactic(auto, unfolding(crate::specs::Reading::value_in))]
fn read_value(s: &Sexp) -> Result<Val, TextFault>
    ensures { Gives (λ x. x) result (value_in s.now) }
{
    if is_tagged("i32", s) {
        let (parts, close) = tagged("i32", s)?;
        let bits = read_bits(u32::MAX as u64, parts, close)?;
        Ok(Val::I32(bits as u32))
    } else {
        let (parts, close) = tagged("i64", s)?;
        let bits = read_bits(u64::MAX, parts, close)?;
        Ok(Val::I64(bits))
    }
}

// FROMs.
fn read_origins(alloc: Global, made: &NameTable, parts: &[Sexp]) -> Result<List<Origin>, TextFault>
    ensures { Gives (λ x. x) result (all_from (origin_in made.now) [] parts.now) }
{
    let mut origins = List::new(alloc);
    for s in parts {
        origins.push(read_origin(alloc, made, s)?)?;
    }
    Ok(origins)
}

// VALUEs.
fn read_values(alloc: Global, parts: &[Sexp]) -> Result<List<Val>, TextFault>
    ensures { Gives (λ x. x) result (all_from value_in [] parts.now) }
{
    let mut values = List::new(alloc);
    for s in parts {
        values.push(read_value(s)?)?;
    }
    Ok(values)
}

// LOAD.
#[tactic(auto, unfolding(crate::specs::Reading::load_in))]
fn read_load(alloc: Global, modules: &NameTable, s: &Sexp) -> Result<Load, TextFault>
    ensures given { Gives (λ x. x) result (load_in modules.now s.now) }
    ensures new { IfOk result (λ l. is_among modules.now l.name ≡ false) }
{
    let (parts, close) = tagged("load", s)?;
    let (first, parts) = next(close, parts)?;
    let name = fresh(modules, first)?;
    let (second, parts) = next(close, parts)?;
    let file = string(second)?;
    end(parts)?;
    Ok(Load {
        name: Text::from_str(alloc, name)?,
        file: Text::from_str(alloc, file)?,
    })
}

// The parts of a `new` behind its word.
#[tactic(auto, unfolding(crate::specs::Reading::new_in))]
fn read_new(
    alloc: Global,
    modules: &NameTable,
    made: &NameTable,
    parts: &[Sexp],
    close: usize,
) -> Result<Action, TextFault>
    ensures given { Gives (λ x. x) result (new_in modules.now made.now (parts.now, close)) }
    ensures new { IfOk result (IsNewAmong made.now) }
{
    let (first, parts) = next(close, parts)?;
    let instance = fresh(made, first)?;
    let (second, parts) = next(close, parts)?;
    let module = known(modules, second)?;
    let from = read_origins(alloc, made, parts)?;
    Ok(Action::New {
        instance: Text::from_str(alloc, instance)?,
        module: Text::from_str(alloc, module)?,
        from,
    })
}

// The parts of a `call` behind its word.
#[tactic(auto, unfolding(crate::specs::Reading::call_in))]
fn read_call(
    alloc: Global,
    made: &NameTable,
    parts: &[Sexp],
    close: usize,
) -> Result<Action, TextFault>
    ensures given { Gives (λ x. x) result (call_in made.now (parts.now, close)) }
    ensures new { IfOk result (IsNewAmong made.now) }
{
    let (first, parts) = next(close, parts)?;
    let instance = known(made, first)?;
    let (second, parts) = next(close, parts)?;
    let export = string(second)?;
    let args = read_values(alloc, parts)?;
    Ok(Action::Call {
        instance: Text::from_str(alloc, instance)?,
        export: Text::from_str(alloc, export)?,
        at: second.at,
        args,
    })
}

// ACTION.
#[tactic(auto, unfolding(crate::specs::Reading::action_in))]
fn read_action(
    alloc: Global,
    modules: &NameTable,
    made: &NameTable,
    s: &Sexp,
) -> Result<Action, TextFault>
    ensures given { Gives (λ x. x) result (action_in modules.now made.now s.now) }
    ensures new { IfOk result (IsNewAmong made.now) }
{
    if is_tagged("new", s) {
        let (parts, close) = tagged("new", s)?;
        read_new(alloc, modules, made, parts, close)
    } else {
        let (parts, close) = tagged("call", s)?;
        read_call(alloc, made, parts, close)
    }
}

// Adds the name of a load that is new, and the load.
fn add_load(modules: &mut NameTable, loads: &mut List<Load>, load: Load) -> Result<(), TextFault>
    requires same { modules.old ≡ modules_of loads.old }
    requires new { is_among modules.old load.name ≡ false }
    ensures loads { OnOk result (loads.new ≡ loads.old ++ load ∷ []) }
    ensures names { OnOk result (modules.new ≡ modules_of loads.new) }
    ensures err { IfErr result (λ e. e ≡ TextFault.OutOfMemory) }
{
    modules.push(load.name.as_str())?;
    loads.push(load)?;
    Ok(())
}

// Adds the name of the instance that an action makes, if it makes one.
fn add_name(made: &mut NameTable, action: &Action) -> Result<(), OutOfMemory>
    requires { IsNewAmong made.old action.now }
    ensures { OnOk result (made.new ≡ made.old ++ made_by action.now) }
{
    match action {
        Action::New { instance, .. } => made.push(instance.as_str()),
        Action::Call { .. } => Ok(()),
    }
}

// Adds an action, and the name of the instance that it makes.
fn add_action(
    made: &mut NameTable,
    actions: &mut List<Action>,
    action: Action,
) -> Result<(), TextFault>
    requires same { made.old ≡ instances_of actions.old }
    requires new { IsNewAmong made.old action }
    ensures actions { OnOk result (actions.new ≡ actions.old ++ action ∷ []) }
    ensures names { OnOk result (made.new ≡ instances_of actions.new) }
    ensures err { IfErr result (λ e. e ≡ TextFault.OutOfMemory) }
{
    add_name(made, &action)?;
    actions.push(action)?;
    Ok(())
}

// Loads at the front, and the parts after them.
fn read_loads<'a>(
    alloc: Global,
    modules: &mut NameTable,
    parts: &'a [Sexp],
) -> Result<(List<Load>, &'a [Sexp]), TextFault>
    requires { modules.old ≡ [] }
    ensures given { Gives (λ x. (x.0, x.1.now)) result (loads_from [] parts.now) }
    ensures names { IfOk result (λ x. modules.new ≡ modules_of x.0) }
{
    let mut loads = List::new(alloc);
    for (n, s) in parts.iter().enumerate() {
        if !is_tagged("load", s) {
            return Ok((loads, &parts[n..]));
        }
        let load = read_load(alloc, modules, s)?;
        add_load(modules, &mut loads, load)?;
    }
    Ok((loads, &parts[parts.len()..]))
}

// Actions.
fn read_actions(
    alloc: Global,
    modules: &NameTable,
    parts: &[Sexp],
) -> Result<List<Action>, TextFault>
    ensures { Gives (λ x. x) result (actions_from modules.now [] parts.now) }
{
    let mut made = NameTable::new(alloc);
    let mut actions = List::new(alloc);
    for s in parts {
        let action = read_action(alloc, modules, &made, s)?;
        add_action(&mut made, &mut actions, action)?;
    }
    Ok(actions)
}

// SCRIPT.
#[tactic(auto, unfolding(crate::specs::Reading::script_in))]
fn read_tree(alloc: Global, s: &Sexp) -> Result<Script, TextFault>
    ensures { Gives (λ x. x) result (script_in s.now) }
{
    let (parts, close) = tagged("script", s)?;
    let (first, parts) = next(close, parts)?;
    let steps = number(1, MAX_STEPS, first)?;
    let mut modules = NameTable::new(alloc);
    let (loads, parts) = read_loads(alloc, &mut modules, parts)?;
    let actions = read_actions(alloc, &modules, parts)?;
    Ok(Script {
        steps: steps as u32,
        loads,
        actions,
    })
}

// The script of a text, with one clause for all that is answered.
fn read_whole(alloc: Global, text: &[u8]) -> Result<Script, TextFault>
    ensures { IsRead text.now result }
{
    match read_sexp(alloc, text) {
        Ok(s) => read_tree(alloc, &s),
        Err(fault) => Err(fault),
    }
}

/// The script that the text spells, or the fault where its longest reading stops.
pub fn read_script(alloc: Global, text: &[u8]) -> Result<Script, TextFault>
    // What is read is spelled so.
    ensures found { IfOk result (ScriptSpells text.now) }

    // What is spelled so is read, unless memory runs out.
    ensures only { (x : Spelled) → ScriptSpells text.now x → Gives (λ r. r) result (Ok x) }

    // A refusal is the text's fault, or want of memory.
    ensures fault { IfErr result (λ e. (e ≡ TextFault.OutOfMemory) ⊎ ScriptFault text.now e) }

    // Where the text has a fault, it is answered, unless memory runs out.
    ensures refused { (e : Fault) → ScriptFault text.now e → Gives (λ r. r) result (Err e) }
{
    read_whole(alloc, text)
}
