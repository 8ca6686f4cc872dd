//! Laws over the definitions alone, for the crates above.

ghost use Rattle.std.specs.Prelude.{◌≡◌, ◌↔◌, IsTrue};
ghost use Rattle.wasm_syntax.specs.declared.module.FuncType.{FuncType};
ghost use Rattle.wasm_store.specs.declared.config.Outcome.TheVariants.{Running};
ghost use Rattle.wasm_store.specs.Configuration.{Configuration};
ghost use Rattle.wasm_store.specs.Control.{is_same_func_type};
ghost use Rattle.wasm_store.specs.Step.{Step};

/// Only a running configuration has a step, and no step changes a function, a table or an instance.
pub fn steps_keep_code()
    ensures running { (c d : Configuration) → Step c d → c.outcome ≡ Running }
    ensures funcs { (c d : Configuration) → Step c d → d.store.funcs ≡ c.store.funcs }
    ensures tables { (c d : Configuration) → Step c d → d.store.tables ≡ c.store.tables }
    ensures instances { (c d : Configuration) → Step c d → d.store.instances ≡ c.store.instances }
{}

/// The test of an indirect call holds exactly of equal function types.
pub fn same_types_are_equal()
    ensures { (a b : FuncType) → IsTrue (is_same_func_type a b) ↔ (a ≡ b) }
{}
