//! Laws over the definitions alone, for the crates above.

ghost use Rattle.std.specs.Prelude.{◌≡◌, Bool, false};
ghost use Rattle.wasm_store.specs.Configuration.{Configuration};
ghost use Rattle.wasm_store.specs.Step.{Step, StepBy};
ghost use Rattle.wasm_store.specs.declared.config.Outcome.TheVariants.{Running};
ghost use Rattle.type_safety.specs.Safety.{HasCodeOnTop};
ghost use Rattle.type_safety.specs.Typed.{Typed};
ghost use Rattle.wasm_reduce.specs.declared.policy.Policy.{Policy};
ghost use Rattle.wasm_reduce.specs.Policies.{PolicyStep};

/// A step under a policy is a step.
pub fn policy_steps_are_steps()
    ensures { (policy : Policy) (c d : Configuration) → PolicyStep policy c d → Step c d }
{}

/// A step is determined by what it starts from and by whether a memory grows in it.
pub fn steps_are_determined()
    ensures { (grows : Bool) (c d e : Configuration) → StepBy grows c d → StepBy grows c e → d ≡ e }
{}

/// Where there is a step there is one under each policy, and one in which no memory grows.
pub fn policies_have_steps()
    ensures policy { (policy : Policy) (c d : Configuration) → Step c d → (e : Configuration) × PolicyStep policy c e }
    ensures failing { (c d : Configuration) → Step c d → (e : Configuration) × StepBy false c e }
{}

/// Each typed running configuration whose top frame is of code has a step under each policy.
pub fn policies_go_on()
    ensures { (policy : Policy) (c : Configuration) → Typed c → c.outcome ≡ Running → HasCodeOnTop c.frames → (d : Configuration) × PolicyStep policy c d }
{}

/// A step under a policy keeps a configuration typed.
pub fn policy_steps_keep_types()
    ensures { (policy : Policy) (c d : Configuration) → Typed c → PolicyStep policy c d → Typed d }
{}
