// Laws over the definitions alone.

ghost use Rattle.std.specs.Prelude.{◌≡◌, ◌≤◌, ◌+◌, ◌⊎◌, ℕ, List, length};
ghost use Rattle.wasm_syntax.specs.declared.module.Module.{Module};
ghost use Rattle.wasm_syntax.specs.declared.module.Marks.{Marks};
ghost use Rattle.binary_grammar.specs.ModuleGrammar.{Spells};
ghost use Rattle.wasm_seal.specs.Sealed.{sealed_file, Split, with_notes};

use wasm_write::laws::{numbers_are_spelled, texts_are_shortest};

/// A file is split in at most one way.
pub fn one_split()
    ensures { (file b c t u : List ℕ) → Split file b t → Split file c u → (b ≡ c) × (t ≡ u) }
{}

/// Every file has a split or none.
pub fn split_or_none()
    ensures { (file : List ℕ) → ((parts : List ℕ × List ℕ) × Split file parts.0 parts.1) ⊎ ((parts : List ℕ × List ℕ) → Split file parts.0 parts.1 → ⊥) }
{}

/// A module's bytes that are sealed with notes are split into them again, and spell the module with one custom section more.
pub fn sealed_files()
    ensures split { (bytes notes : List ℕ) (m : Module) (k : Marks) → Spells bytes m k → length notes ≤ 4294967282 → Split (sealed_file bytes notes) bytes notes }
    ensures spelled { (bytes notes : List ℕ) (m : Module) (k : Marks) → Spells bytes m k → length notes ≤ 4294967282 →
        Spells (sealed_file bytes notes) (with_notes notes m) (record k { len = length (sealed_file bytes notes) }) }
{
    numbers_are_spelled();
}

/// A file that is sealed with notes within their limit is at most 18 bytes longer than its two parts.
pub fn sealed_length()
    ensures { (bytes notes : List ℕ) → length notes ≤ 16777216 → length (sealed_file bytes notes) ≤ length bytes + length notes + 18 }
{
    texts_are_shortest();
}
