// Reading a whole text.

ghost use Rattle.std.specs.Prelude.{◌≡◌, ℕ, List, Ok, IfOk};
ghost use Rattle.sexp_text.specs.declared.sexp.Sexp.{Sexp};
ghost use Rattle.sexp_text.specs.Items.{items_of};
ghost use Rattle.sexp_text.specs.Reading.{Gives, read};
ghost use Rattle.sexp_text.specs.Spelling.{SexpSpells};
ghost use Rattle.sexp_text.specs.Printing.{printed, tree_of};

use crate::fault::TextFault;
use crate::reader::{Mode, Progress};
use crate::sexp::Sexp;
use crate::step::{finish, step};
use std::alloc::Global;

// The value that a text spells, with the one clause that its items are those that reading on lists gives.
#[tactic(auto, unfolding(crate::specs::Reading::read, crate::specs::words::Fronts::front_of))]
fn read_items(alloc: Global, text: &[u8]) -> Result<Sexp, TextFault>
    ensures { Gives items_of result (read text.now) }
{
    let mut progress = Progress::Before;
    let mut mode = Mode::Between;
    for (at, b) in text.iter().enumerate() {
        let (next, after) = step(alloc, at, *b, progress, mode)?;
        progress = next;
        mode = after;
    }
    finish(alloc, text.len(), progress, mode)
}

/// The value that the text spells, or the fault where its longest reading stops. It reads each byte once.
pub fn read_sexp(alloc: Global, text: &[u8]) -> Result<Sexp, TextFault>
    // What is read is spelled so.
    ensures found { IfOk result (SexpSpells text.now) }

    // What is spelled so is read, unless memory runs out.
    ensures only { (s : Sexp) → SexpSpells text.now s → Gives (λ r. r) result (Ok s) }

    // Which fault it is.
    ensures exact { Gives items_of result (read text.now) }

    // What was printed of a value that some text spells is read again as that value, up to its places.
    ensures again { (s : Sexp) (other : List ℕ) → SexpSpells other s → text.now ≡ printed s → Gives tree_of result (Ok (tree_of s)) }
{
    read_items(alloc, text)
}
