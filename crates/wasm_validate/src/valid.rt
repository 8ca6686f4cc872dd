ghost use Rattle.std.specs.Prelude.{◌≡◌};
ghost use Rattle.wasm_typing.specs.Valid.{Valid};
ghost use Rattle.wasm_typing.specs.faults.Faults.{Marked, InvalidAt};
ghost use Rattle.body_check.specs.words.Answers.{Answers};

use crate::check::check_module;
use crate::ranges::read_numbers;
use std::alloc::Global;
use std::marker::Model;
use wasm_syntax::{Marks, Module};
use wasm_typing::ValidFault;

/// A module that is valid by its type. Contracts see the module.
#[derive(Drop)]
pub struct ValidModule {
    module: Module,
}

impl Model for ValidModule {
    ghost use Rattle.wasm_syntax.specs.declared.module.Module.{Module};
    ghost use Rattle.wasm_syntax.specs.contracts.module.Module as of_module;
    ghost use Rattle.wasm_typing.specs.Valid.{Valid};

    ghost Value = { Module };

    ghost coded = { of_module.the_row.coded };

    ghost view = { λ v. v.module };

    ghost invariant = { λ v. Valid v.module };
}

impl ValidModule {
    /// The module, lent.
    pub fn module(&self) -> &Module
        ensures same { result.now ≡ self.now }
        ensures valid { Valid self.now }
    {
        &self.module
    }
}

/// Tells whether a module is valid, or else the place and word of its first fault. A refusal drops the module.
pub fn validate(alloc: Global, module: Module, marks: &Marks) -> Result<ValidModule, ValidFault>
    requires { Marked «module» marks.now }
    ensures { Answers (λ v. (v ≡ «module») × Valid «module») (λ at w. InvalidAt «module» marks.now at w × (Valid «module» → ⊥)) result }
{
    match check_module(alloc, &module, marks) {
        Ok(()) => {
            read_numbers(&module);
            Ok(ValidModule { module })
        }
        Err(fault) => Err(fault),
    }
}
