//! Laws over the definitions alone, for the crates above.

ghost use Rattle.std.specs.Prelude.{◌≡◌, ℕ, List};
ghost use Rattle.wasm_syntax.specs.declared.module.Module.{Module};
ghost use Rattle.step_bound.specs.Bounds.{FunctionBound};
ghost use Rattle.step_bound.specs.declared.bound.Bound.{Bound};
ghost use Rattle.step_bound.specs.Told.{IsBoundOf, AreBoundsOf};
ghost use Rattle.step_bound.specs.Runs.{BoundsHold, RunsGoOn};

/// A function has at most one bound, and one answer alone tells of it.
pub fn bounds_are_unique()
    ensures bound { (m : Module) (k a b : ℕ) → FunctionBound m k a → FunctionBound m k b → a ≡ b }
    ensures answers { (m : Module) (a b : List Bound) → AreBoundsOf m a → AreBoundsOf m b → a ≡ b }
    ensures answer { (m : Module) (k : ℕ) (a b : Bound) → IsBoundOf m k a → IsBoundOf m k b → a ≡ b }
{}

/// Each module has bounds: of each of its functions, one answer holds.
pub fn every_module_has_bounds()
    ensures { (m : Module) → (bounds : List Bound) × AreBoundsOf m bounds }
{}

/// In every list of as many steps as a function's bound says, from its entry on, its frame has left or there is a trap,
/// whichever other modules and hosts there are; and until then a typed configuration has a next step.
pub fn bounded_functions_leave()
    ensures within { BoundsHold }
    ensures going { RunsGoOn }
{}
