// What the definitions of reports rest on.

ghost use Rattle.std.specs.Prelude.{◌≡◌, ◌≤◌, ◌↔◌, ℕ, List, [], ◌∷◌, length, Some, codes};
ghost use Rattle.rw_edge.specs.Files.{contents_of};
ghost use Rattle.wasm_seal.specs.Sealed.{Split};
ghost use Rattle.report_lines.specs.declared.status.Status.TheVariants as status;
ghost use Rattle.report_lines.specs.Reports.{Report, Files, HoldBytes};
ghost use Rattle.verify_report.specs.Reports.{IsReport};
ghost use Rattle.verify_report.specs.Outcomes.{verified_text};

use wasm_seal::{sealed_files, sealed_length};

/// Words have at most one report over the files.
pub fn one_report()
    ensures { (words : List (List ℕ)) (files : Files) (r s : Report) → IsReport words files r → IsReport words files s → r ≡ s }
{}

/// Words have a report over any files that hold bytes.
pub fn every_report_exists()
    ensures { (words : List (List ℕ)) (files : Files) → HoldBytes files → (r : Report) × IsReport words files r }
{}

/// `show` has a report over any files.
pub fn show_has_a_report()
    ensures { (files : Files) (name : List ℕ) → (r : Report) × IsReport (codes "show" ∷ name ∷ []) files r }
{}

/// `sealed` on a file of at most 20,971,538 bytes answers what `verify` answers on its two parts.
pub fn sealed_answers_as_verify()
    ensures { (files others : Files) (name «module» notes file bytes text : List ℕ) (r : Report) →
        contents_of files name ≡ Some file → length file ≤ 20971538 → Split file bytes text → contents_of others «module» ≡ Some bytes → contents_of others notes ≡ Some text →
        IsReport (codes "sealed" ∷ name ∷ []) files r ↔ IsReport (codes "verify" ∷ «module» ∷ notes ∷ []) others r }
{}

/// What `seal` writes of files is verified by `sealed`.
pub fn what_is_sealed_is_verified()
    ensures { (files others : Files) («module» notes name : List ℕ) (r : Report) →
        IsReport (codes "seal" ∷ «module» ∷ notes ∷ []) files r → r.status ≡ status.Good → contents_of others name ≡ Some r.text →
        IsReport (codes "sealed" ∷ name ∷ []) others (record { text = verified_text; status = status.Good }) }
{
    sealed_files();
    sealed_length();
}
