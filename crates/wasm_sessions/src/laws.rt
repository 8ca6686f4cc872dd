//! Laws over the definitions alone, for the crates above.

ghost use Rattle.std.specs.Prelude.{◌≡◌, ℕ, List, []};
ghost use Rattle.wasm_values.specs.declared.number.Val.{Val};
ghost use Rattle.wasm_syntax.specs.declared.module.FuncType.{FuncType};
ghost use Rattle.wasm_syntax.specs.declared.module.Module.{Module};
ghost use Rattle.wasm_typing.specs.Valid.{Valid};
ghost use Rattle.wasm_store.specs.declared.store.Extern.{Extern};
ghost use Rattle.wasm_store.specs.Configuration.{Configuration, started};
ghost use Rattle.type_safety.specs.Safety.{Preserves};
ghost use Rattle.wasm_sessions.specs.Instantiation.{Instantiated, Invoked};
ghost use Rattle.wasm_sessions.specs.Hosts.{HostAdded, HostWrite, HostCall, HostReturn, HostTrap, HostCatch, HostInstantiates};
ghost use Rattle.wasm_sessions.specs.Sessions.{IsSession, IsMoment};
ghost use Rattle.wasm_sessions.specs.Safety.{ActionsPreserve, SessionsAreTyped};

/// A session begins with nothing.
pub fn sessions_begin_with_nothing()
    ensures { (moments : List Configuration) (c : Configuration) → IsSession moments → IsMoment moments 0 c → c ≡ started }
{}

/// An instantiation of a valid module keeps configurations typed.
pub fn instantiations_keep_types()
    ensures { (m : Module) (externs : List Extern) → Valid m → Preserves (λ c d. Instantiated c m externs d) }
{}

/// Invocations keep configurations typed.
pub fn invocations_keep_types()
    ensures { (e : Extern) (values : List Val) → Preserves (λ c d. Invoked c e values d) }
{}

/// What hosts and the embedder do keeps configurations typed.
pub fn hosts_keep_types()
    ensures added { (ty : FuncType) → Preserves (λ c d. HostAdded c ty d) }
    ensures written { Preserves HostWrite }
    ensures called { (func : ℕ) (values : List Val) → Preserves (λ c d. HostCall c func values d) }
    ensures returned { (values : List Val) → Preserves (λ c d. HostReturn c values d) }
    ensures trapped { Preserves HostTrap }
    ensures caught { Preserves HostCatch }
    ensures loaded { (m : Module) (externs : List Extern) → Preserves (λ c d. HostInstantiates c m externs d) }
{}

/// Each action of a session keeps configurations typed, and so each moment of each session is typed.
pub fn sessions_are_typed()
    ensures actions { ActionsPreserve }
    ensures moments { SessionsAreTyped }
{}
