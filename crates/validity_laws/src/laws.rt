// What there is to say of every module and its marks.

ghost use Rattle.std.specs.Prelude.{◌≡◌, ◌⊎◌, ℕ, List};
ghost use Rattle.wasm_syntax.specs.declared.module.Module.{Module};
ghost use Rattle.wasm_syntax.specs.declared.module.Marks.{Marks};
ghost use Rattle.wasm_typing.specs.declared.fault.ValidWord.{ValidWord};
ghost use Rattle.wasm_typing.specs.Valid.{Valid, InRange, BytesInRange};
ghost use Rattle.wasm_typing.specs.faults.Faults.{InvalidAt, Marked};
ghost use Rattle.binary_grammar.specs.ModuleGrammar.{Spells};

/// A module whose numbers lie in their ranges, with marks that have one place for each entry and instruction, is valid or
/// has a first fault, and not both.
pub fn valid_or_faulty()
    ensures one { (m : Module) (k : Marks) → Marked m k → InRange m → Valid m ⊎ ((at : ℕ) × (w : ValidWord) × InvalidAt m k at w) }
    ensures not_both { (m : Module) (k : Marks) (at : ℕ) (w : ValidWord) → Valid m → InvalidAt m k at w → ⊥ }
{}

/// The numbers of a module that bytes spell lie in the ranges of their types.
pub fn spelled_ranges()
    ensures { (bytes : List ℕ) (m : Module) (k : Marks) → BytesInRange bytes → Spells bytes m k → InRange m }
{}

/// A module with its marks has at most one first fault.
pub fn one_first_fault()
    ensures { (m : Module) (k : Marks) (at other : ℕ) (w v : ValidWord) → InvalidAt m k at w → InvalidAt m k other v → (at ≡ other) × (w ≡ v) }
{}

/// The marks that bytes spell have one place for each entry and each instruction.
pub fn spelled_marks()
    ensures { (bytes : List ℕ) (m : Module) (k : Marks) → Spells bytes m k → Marked m k }
{}
