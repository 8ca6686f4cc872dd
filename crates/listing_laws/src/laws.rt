// The law that joins the listing of a module with texts.

ghost use Rattle.std.specs.Prelude.{◌≡◌, ℕ, List};
ghost use Rattle.module_listing.specs.Listing.{quoted as listed};
ghost use Rattle.sexp_text.specs.Spelling.{quoted};

/// A name is listed as the string of a text with its bytes.
pub fn listed_strings()
    ensures { (bytes : List ℕ) → listed bytes ≡ quoted bytes }
{}
