//! Typed configurations, what keeps them typed, and that they go on.
#![tactic(auto)]

ghost use Rattle.std.specs.Prelude.{◌≡◌, []};
ghost use Rattle.wasm_store.specs.Configuration.{Configuration, started};
ghost use Rattle.wasm_store.specs.Step.{Step};
ghost use Rattle.type_safety.specs.Safety.{HasCodeOnTop, Preservation, Progress};
ghost use Rattle.type_safety.specs.Typed.{Typed};

/// The configuration before anything is instantiated is typed.
pub fn the_first_is_typed()
    ensures { Typed started }
{}

/// Only where the top frame is of code is there a step.
pub fn steps_need_code()
    ensures { (c d : Configuration) → Step c d → HasCodeOnTop c.frames }
{}

/// Each typed running configuration whose top frame is of code has a step.
pub fn progress()
    ensures { Progress }
{}

/// Each step of a typed configuration gives a typed one.
pub fn preservation()
    ensures { Preservation }
{}
