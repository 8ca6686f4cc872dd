//! Laws over the definitions alone.

ghost use Rattle.std.specs.Prelude.{◌≡◌, Result};
ghost use Rattle.script_text.specs.declared.script.Script.{Script};
ghost use Rattle.wasm_link.specs.declared.fault.LinkFault.{LinkFault};
ghost use Rattle.wasm_link.specs.declared.log.Log.{Log};
ghost use Rattle.wasm_link.specs.Loading.{Files};
ghost use Rattle.wasm_link.specs.Logs.{ScriptsAreSessions};
ghost use Rattle.wasm_link.specs.Answers.{HoldBytes, IsSpelled, ScriptAnswers};

/// The configurations that a script goes through are the moments of one session.
pub fn moments_of_scripts()
    ensures { ScriptsAreSessions }
{}

/// A script comes to one end over the same files: at most one log, one place of an export that is lacking, or one refusal, and never
/// two of these.
pub fn one_answer()
    ensures { (files : Files) (x : Script) (r s : Result Log LinkFault) → ScriptAnswers files x r → ScriptAnswers files x s → r ≡ s }
{}

/// A script that some text spells comes to an end over any files that hold bytes.
pub fn every_script_has_an_answer()
    ensures { (files : Files) (x : Script) → HoldBytes files → IsSpelled x → (r : Result Log LinkFault) × ScriptAnswers files x r }
{}
