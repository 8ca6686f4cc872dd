// What the definition of the report rests on.

ghost use Rattle.std.specs.Prelude.{◌≡◌, ◌↔◌, ℕ, List, IsSomeAnd};
ghost use Rattle.rw_edge.specs.Files.{contents_of};
ghost use Rattle.report_lines.specs.declared.status.Status.TheVariants as status;
ghost use Rattle.report_lines.specs.Reports.{Report, Files, HoldBytes};
ghost use Rattle.link_report.specs.Links.{OfLink, AcceptsScript};

/// `link` has at most one report over the files.
pub fn one_link_report()
    ensures { (files : Files) (name : List ℕ) (r s : Report) → OfLink files name r → OfLink files name s → r ≡ s }
{}

/// `link` has a report over any files that hold bytes.
pub fn every_link_has_a_report()
    ensures { (files : Files) (name : List ℕ) → HoldBytes files → (r : Report) × OfLink files name r }
{}

/// `link` is good exactly where the script's file spells a script that has a log over the files.
pub fn link_is_good_exactly()
    ensures only { (files : Files) (name : List ℕ) (r : Report) → OfLink files name r → r.status ≡ status.Good → IsSomeAnd (contents_of files name) (AcceptsScript files) }
    ensures there { (files : Files) (name : List ℕ) → IsSomeAnd (contents_of files name) (AcceptsScript files) → (r : Report) × OfLink files name r × (r.status ≡ status.Good) }
{}
