// The laws of texts: what is said of them by the definitions alone.

ghost use Rattle.std.specs.Prelude.{◌≡◌, ◌≤◌, ◌⊎◌, ◌++◌, ℕ, List, Ok, Err, length, take};
ghost use Rattle.sexp_text.specs.declared.fault.TextFault.{TextFault};
ghost use Rattle.sexp_text.specs.declared.sexp.Sexp.{Sexp};
ghost use Rattle.sexp_text.specs.Items.{Item, items_of};
ghost use Rattle.sexp_text.specs.Reading.{read, refused, word_end};
ghost use Rattle.sexp_text.specs.Spelling.{SexpSpells, IsWord};
ghost use Rattle.sexp_text.specs.Printing.{printed, tree_of};
ghost use Rattle.sexp_text.specs.Faults.{IsNoEnd, IsText, IsCut, CanGoOn, Refusal, place_of};
ghost use Rattle.sexp_text.specs.declared.fault.TextWord.TheVariants.{End};

/// A text spells a value exactly where reading it succeeds with that value.
pub fn spelled_is_read()
    ensures read { (text : List ℕ) (s : Sexp) → SexpSpells text s → read text ≡ Ok (items_of s) }
    ensures spelled { (text : List ℕ) (items : List Item) → read text ≡ Ok items →
        (s : Sexp) × (items ≡ items_of s) × SexpSpells text s }
{}

/// A text spells at most one value.
pub fn one_value()
    ensures { (text : List ℕ) (s t : Sexp) → SexpSpells text s → SexpSpells text t → s ≡ t }
{}

/// A text spells a value, or has exactly one fault.
pub fn value_or_fault()
    ensures { (text : List ℕ) → IsText text ⊎
        ((fault : TextFault) × (read text ≡ Err fault) × (IsText text → ⊥) ×
        ((other : TextFault) → read text ≡ Err other → other ≡ fault)) }
{}

/// The printed text of a value that some text spells, spells that value, up to its places.
pub fn printed_again()
    ensures { (text : List ℕ) (s : Sexp) → SexpSpells text s →
        (again : Sexp) × SexpSpells (printed s) again × (tree_of again ≡ tree_of s) }
{}

/// Values that differ in their places alone are printed alike.
pub fn printed_alike()
    ensures { (s t : Sexp) → tree_of s ≡ tree_of t → printed s ≡ printed t }
{}

/// A fault stands where the longest reading stops.
pub fn longest_reading()
    // The text before a fault other than `end` can go on to spell a value.
    ensures before { (text : List ℕ) (fault : TextFault) → read text ≡ Err fault → IsNoEnd fault →
        CanGoOn (take (place_of fault) text) }

    // It stands at a part that is refused with its word: with that part no text goes on to spell a value. The part is one
    // byte, but for `number`, `string` and `utf8`.
    ensures refused { (text : List ℕ) (fault : TextFault) → read text ≡ Err fault → IsNoEnd fault → Refusal text fault }

    // A fault other than `end` stays, whatever follows the text.
    ensures stays { (text more : List ℕ) (fault : TextFault) → read text ≡ Err fault → IsNoEnd fault →
        read (text ++ more) ≡ Err fault }

    // The place of `end` is the text's length, and with more bytes the text goes on to spell a value, or to a whole
    // string that is no UTF-8.
    ensures end { (text : List ℕ) (at : ℕ) → read text ≡ refused at End → at ≡ length text }
    ensures cut { (text : List ℕ) (at : ℕ) → read text ≡ refused at End → IsCut text }
{}

/// A text is refused so at most once, and reading gives that fault.
pub fn refused_once()
    ensures read { (text : List ℕ) (fault : TextFault) → Refusal text fault → read text ≡ Err fault }
    ensures once { (text : List ℕ) (fault other : TextFault) → Refusal text fault → Refusal text other → fault ≡ other }
{}

/// A run that is no word is refused after its longest front that is one.
pub fn longest_word()
    ensures word { (run : List ℕ) → (word_end run ≡ 0) ⊎ IsWord (take (word_end run) run) }
    ensures longest { (word rest : List ℕ) → IsWord word → length word ≤ word_end (word ++ rest) }
{}
