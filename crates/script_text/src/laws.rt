//! Laws over the definitions alone.

ghost use Rattle.std.specs.Prelude.{◌≡◌, ◌⊎◌, ℕ, List};
ghost use Rattle.sexp_text.specs.declared.fault.TextFault.{TextFault};
ghost use Rattle.script_text.specs.declared.script.Script.{Script};
ghost use Rattle.script_text.specs.Spelling.{ScriptSpells, ScriptFault};

/// A text spells at most one script.
pub fn one_script()
    ensures { (text : List ℕ) (x y : Script) → ScriptSpells text x → ScriptSpells text y → x ≡ y }
{}

/// A text spells a script or has a fault, not both, and no other fault.
pub fn script_or_fault()
    ensures one { (text : List ℕ) → ((x : Script) × ScriptSpells text x) ⊎ ((fault : TextFault) × ScriptFault text fault) }
    ensures apart { (text : List ℕ) (x : Script) (fault : TextFault) → ScriptSpells text x → ScriptFault text fault → ⊥ }
    ensures fault { (text : List ℕ) (fault other : TextFault) → ScriptFault text fault → ScriptFault text other → fault ≡ other }
{}
