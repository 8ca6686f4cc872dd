ghost use Rattle.std.specs.Prelude.{◌≡◌, ◌<◌, ◌∷◌};
ghost use Rattle.wasm_syntax.specs.Items.{instr_seen};
ghost use Rattle.outline_check.specs.Refusals.{HasMemory, IsSaid};
ghost use Rattle.outline_check.specs.States.{made, with_fact, with_global, with_globals, assumed, entered, initial_term, initial_state, with_set, after, nothing};

use crate::derivation::{fact_of, term_at};
use crate::notes::Formula;
use crate::state::{Fact, Stack, State, Term};
use crate::stop::Why;
use std::alloc;
use wasm_syntax::{Global, Instr, Plain, Simple};
use wasm_values::{LimitWord, List, OrMemory, Val};

const MAX_VARIABLES: u32 = 1_000_000;

const MAX_FACTS: usize = 4_096;

const MAX_NODES: usize = 1_000_000;

/// The state, if it is within the limits.
#[tactic(auto, unfolding(crate::specs::States::made))]
fn made(state: State) -> Result<State, OrMemory<Why>>
    ensures said { IsSaid result (made state) }
    ensures memory { HasMemory result }
{
    let facts = state.facts.len();
    let globals = state.globals.len();
    let operands = state.operands.len();
    if state.variables > MAX_VARIABLES {
        Err(OrMemory::Fault(Why::Limit(LimitWord::Variables)))
    } else if facts > MAX_FACTS {
        Err(OrMemory::Fault(Why::Limit(LimitWord::Facts)))
    } else if globals > MAX_NODES
        || operands > MAX_NODES
        || 3 * facts + (globals + operands) > MAX_NODES
    {
        Err(OrMemory::Fault(Why::Limit(LimitWord::State)))
    } else {
        Ok(state)
    }
}

/// One more fact.
pub fn with_fact(fact: Fact, mut state: State) -> Result<State, OrMemory<Why>>
    ensures { IsSaid result (made (with_fact fact state)) }
{
    state.facts.push(fact)?;
    made(state)
}

/// One more global, whose term is a fresh variable with the facts of an i32.
fn with_global(mut state: State) -> Result<State, OrMemory<Why>>
    requires { state.variables < 4294967295 }
    ensures { IsSaid result (made (with_global state)) }
{
    let variable = Term::Variable(state.variables);
    state.facts.push(Fact::AtMost(Term::Number(0), variable))?;
    state
        .facts
        .push(Fact::AtMost(variable, Term::Number(4_294_967_295)))?;
    state.globals.push(variable)?;
    state.variables += 1;
    made(state)
}

fn nothing(alloc: alloc::Global) -> State
    ensures { result ≡ nothing }
{
    State {
        variables: 0,
        facts: List::new(alloc),
        globals: List::new(alloc),
        operands: Stack::new(alloc),
    }
}

fn with_globals(alloc: alloc::Global, globals: usize) -> Result<State, OrMemory<Why>>
    ensures { IsSaid result (with_globals globals) }
{
    let mut state = nothing(alloc);
    for _k in 0..globals {
        state = with_global(state)?;
    }
    Ok(state)
}

fn assumed(formulas: &[Formula], mut state: State) -> Result<State, OrMemory<Why>>
    ensures { IsSaid result (assumed formulas.now state) }
{
    for formula in formulas {
        let fact = fact_of(state.globals.as_slice(), *formula);
        state = with_fact(fact, state)?;
    }
    Ok(state)
}

/// The state at a function's entry.
pub fn entered(
    alloc: alloc::Global,
    globals: usize,
    invariant: &[Formula],
) -> Result<State, OrMemory<Why>>
    ensures { IsSaid result (entered globals invariant.now) }
{
    let state = with_globals(alloc, globals)?;
    assumed(invariant, state)
}

fn initial_term(init: &[Instr]) -> Term
    ensures { result ≡ initial_term init.now }
{
    match init {
        [Instr::Const(Val::I32(n))] => Term::Number(i128::from(*n)),
        _ => Term::Number(0),
    }
}

/// The initial state: each global is its number.
pub fn initial_state(alloc: alloc::Global, globals: &[Global]) -> Result<State, OrMemory<Why>>
    ensures { IsSaid result (initial_state globals.now) }
{
    let mut terms = List::new(alloc);
    for global in globals {
        terms.push(initial_term(global.init.as_slice()))?;
    }
    made(State {
        variables: 0,
        facts: List::new(alloc),
        globals: terms,
        operands: Stack::new(alloc),
    })
}

fn pushed(term: Term, mut state: State) -> Result<State, OrMemory<Why>>
    ensures { IsSaid result (made (record state { operands = term ∷ state.operands })) }
{
    state.operands.push(term)?;
    made(state)
}

fn with_set(k: u32, mut state: State) -> State
    ensures { result ≡ with_set k state.operands state }
{
    if let Some(top) = state.operands.pop() {
        let at = k as usize;
        if at < state.globals.len() {
            state.globals.set(at, top);
        }
    }
    state
}

/// What an instruction does.
pub fn after(instr: Simple<'_>, mut state: State) -> Result<State, OrMemory<Why>>
    ensures { IsSaid result (after (instr_seen instr.entry) state) }
{
    match instr {
        Simple::Plain(Plain::Drop) => {
            let _top = state.operands.pop();
            Ok(state)
        }
        Simple::Const(Val::I32(n)) => pushed(Term::Number(i128::from(n)), state),
        Simple::GlobalGet(k) => {
            let term = term_at(state.globals.as_slice(), k);
            pushed(term, state)
        }
        Simple::GlobalSet(k) => Ok(with_set(k, state)),
        _ => Ok(state),
    }
}
