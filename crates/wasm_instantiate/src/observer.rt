//! Those who look on while a session goes.

ghost use Rattle.std.specs.Prelude.{◌≡◌, IfOk, OnOk, OnErr};
ghost use Rattle.wasm_instantiate.specs.Observers.{Eyes};

use crate::sight::Sight;
use std::alloc::Global;
use wasm_store::Config;
use wasm_validate::ValidModule;
use wasm_values::OutOfMemory;

/// One who is told of each instance that is made, and sees configurations. Contracts see what it has noted so far.
pub trait Observer {
    /// What it notes and answers.
    ghost eyes: { Eyes Self };

    /// An instance of a module was made under a name, by its number. After want of memory nothing has changed.
    fn made(
        &mut self,
        alloc: Global,
        name: &str,
        instance: u32,
        module: &ValidModule,
    ) -> Result<Sight, OutOfMemory>
        ensures noted { OnOk result (self.new ≡ eyes.noted_made self.old name.now instance «module».now) }
        ensures told { IfOk result (λ sight. sight ≡ eyes.told_made self.old name.now instance «module».now) }
        ensures err { OnErr result (self.new ≡ self.old) };

    /// The session has come to a configuration.
    fn see(&mut self, config: &Config) -> Sight
        ensures noted { self.new ≡ eyes.noted_seen self.old config.now }
        ensures told { result ≡ eyes.told_seen self.old config.now };
}
