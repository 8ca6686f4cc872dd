// Lists that begin with a known word, and the widths of cells.

ghost use Rattle.std.specs.Prelude.{◌≡◌};
ghost use Rattle.sexp_text.specs.Reading.{Gives};
ghost use Rattle.notes_grammar.specs.Parts.{part_of, parts_of};
ghost use Rattle.notes_grammar.specs.Reading.{width, field, tagged, is_tagged};

use crate::part::{Seen, form, inside, look, next, place, small, word};
use sexp_text::{Sexp, TextFault};

/// The width of a cell.
#[tactic(auto, unfolding(notes_grammar::specs::Reading::width))]
fn width(part: &Sexp) -> Result<u32, TextFault>
    ensures { Gives (λ n. n) result (width (part_of part.now)) }
{
    let n = small(part)?;
    if n == 1 || n == 2 || n == 4 || n == 8 {
        return Ok(n);
    }
    form(place(part))
}

/// The next part, the width of a cell, and the parts after it.
pub fn width_field(close: usize, parts: &[Sexp]) -> Result<(u32, &[Sexp]), TextFault>
    ensures { Gives (λ x. (x.0, parts_of x.1.now)) result (field width close (parts_of parts.now)) }
{
    let (part, rest) = next(close, parts)?;
    let n = width(part)?;
    Ok((n, rest))
}

/// The parts of a list after this word, and the place where the list closes.
#[tactic(auto, unfolding(notes_grammar::specs::Reading::tagged))]
pub fn tagged<'a>(tag: &str, part: &'a Sexp) -> Result<(&'a [Sexp], usize), TextFault>
    ensures { Gives (λ x. (parts_of x.0.now, x.1)) result (tagged tag.now (part_of part.now)) }
{
    let (parts, close) = inside(part)?;
    let (first, rest) = next(close, parts)?;
    let text = word(first)?;
    if text.as_str() == tag {
        return Ok((rest, close));
    }
    form(place(first))
}

/// Whether a part is a list that begins with this word.
#[tactic(auto, unfolding(notes_grammar::specs::Reading::is_tagged))]
pub fn is_tagged(tag: &str, part: &Sexp) -> bool
    ensures { result ≡ is_tagged tag.now (part_of part.now) }
{
    let Seen::List(parts, _) = look(part) else {
        return false;
    };
    let [first, ..] = parts else {
        return false;
    };
    match look(first) {
        Seen::Word(text) => text.as_str() == tag,
        _ => false,
    }
}
