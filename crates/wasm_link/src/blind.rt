//! One who looks on and sees nothing.

ghost use Rattle.std.specs.Prelude.{◌≡◌};

use std::alloc::Global;
use std::marker::Model;
use wasm_instantiate::{Observer, Sight};
use wasm_store::Config;
use wasm_validate::ValidModule;
use wasm_values::OutOfMemory;

/// An observer that notes nothing and never stops.
#[derive(Drop)]
pub(crate) struct Blind {}

impl Model for Blind {
    ghost Value = { Unit {0} };

    ghost view = { λ _. tt };
}

impl Blind {
    /// One who sees nothing.
    pub(crate) fn new() -> Blind
        ensures { result ≡ tt }
    {
        Blind {}
    }
}

impl Observer for Blind {
    ghost use Rattle.wasm_link.specs.Logs.{blind};

    ghost eyes = { blind };

    fn made(
        &mut self,
        _alloc: Global,
        _name: &str,
        _instance: u32,
        _module: &ValidModule,
    ) -> Result<Sight, OutOfMemory> {
        Ok(Sight::GoOn)
    }

    fn see(&mut self, _config: &Config) -> Sight {
        Sight::GoOn
    }
}
