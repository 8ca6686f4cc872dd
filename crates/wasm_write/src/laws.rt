//! Laws over the definitions alone.

ghost use Rattle.std.specs.Prelude.{◌≡◌, ℕ, ◌^◌, ◌<◌, ◌≤◌, List, length, Ok};
ghost use Rattle.wasm_values.specs.declared.number.ValType.{ValType};
ghost use Rattle.wasm_syntax.specs.declared.module.Module.{Module};
ghost use Rattle.wasm_syntax.specs.declared.module.Marks.{Marks};
ghost use Rattle.binary_grammar.specs.Numbers.{SpellsU32};
ghost use Rattle.binary_grammar.specs.CodeGrammar.{SpellsWord32, SpellsWord64, locals_of};
ghost use Rattle.binary_grammar.specs.Bounds.{the_bounds};
ghost use Rattle.binary_grammar.specs.ModuleGrammar.{Spells};
ghost use Rattle.binary_grammar.specs.words.SectionReading.{module_at};
ghost use Rattle.wasm_write.specs.Shortest.{number_text, signed_text};
ghost use Rattle.wasm_write.specs.Encoding.{runs_of, encoded};
ghost use Rattle.wasm_write.specs.Writable.{Writable};

/// The texts of numbers spell them.
pub fn numbers_are_spelled()
    ensures number { (n : ℕ) → n < 2 ^ 32 → SpellsU32 (number_text n) n }
    ensures word32 { (at n : ℕ) → n < 2 ^ 32 → SpellsWord32 at (signed_text 32 n) n }
    ensures word64 { (at n : ℕ) → n < 2 ^ 64 → SpellsWord64 at (signed_text 64 n) n }
{}

/// No text of a number is shorter, and locals have no fewer runs.
pub fn texts_are_shortest()
    ensures number { (text : List ℕ) (n : ℕ) → SpellsU32 text n → length (number_text n) ≤ length text }
    ensures word32 { (at : ℕ) (text : List ℕ) (n : ℕ) → SpellsWord32 at text n → length (signed_text 32 n) ≤ length text }
    ensures word64 { (at : ℕ) (text : List ℕ) (n : ℕ) → SpellsWord64 at text n → length (signed_text 64 n) ≤ length text }
    ensures runs { (locals : List ValType) (runs : List (ℕ × ValType)) → locals_of runs ≡ locals → length (runs_of locals) ≤ length runs }
{}

/// The text of a writable module spells it, and is read as it.
pub fn modules_are_spelled()
    ensures spelled { (m : Module) → Writable m → (k : Marks) × Spells (encoded m) m k }
    ensures read { (m : Module) → Writable m → (k : Marks) × (module_at the_bounds (encoded m) ≡ Ok (record { «module» = m; marks = k })) }
{}
