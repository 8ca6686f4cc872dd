//! What hosts and the embedder do (section 4.4.7).

ghost use Rattle.std.specs.Prelude.{◌≡◌, ℕ, ◌<◌, ◌≤◌, ◌++◌, ◌∷◌, [], length, IfOk, OnOk, OnErr};
ghost use Rattle.type_safety.specs.Typed.{Typed};
ghost use Rattle.wasm_sessions.specs.Instantiation.{IsAtRest};
ghost use Rattle.wasm_sessions.specs.Hosts.{HostAdded};

use std::alloc::Global;
use wasm_sessions::laws::hosts_keep_types;
use wasm_store::{Config, Extern, FuncInst};
use wasm_syntax::FuncType;
use wasm_values::OutOfMemory;

/// Adds a function of a host, of a type with at most one result, and answers its extern.
pub fn add_host(alloc: Global, config: &mut Config, ty: &FuncType) -> Result<Extern, OutOfMemory>
    requires typed { Typed config.old }
    requires at_rest { IsAtRest config.old.outcome }
    requires room { length config.old.store.funcs < 4294967295 }
    requires one_result { length ty.now.results ≤ 1 }
    ensures added { OnOk result (HostAdded config.old ty.now config.new) }
    ensures answer { IfOk result (λ e. e ≡ Extern.Func (length config.old.store.funcs)) }
    ensures err { OnErr result (config.new ≡ config.old) }
    ensures typed { Typed config.new }
{
    hosts_keep_types();
    let address = config.store.funcs.len() as u32;
    let ty = ty.copy(alloc)?;
    config.store.funcs.push(FuncInst::Host { ty })?;
    Ok(Extern::Func(address))
}
