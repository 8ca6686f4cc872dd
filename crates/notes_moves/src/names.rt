// Names of lemmas.

ghost use Rattle.std.specs.Prelude.{◌≡◌};
ghost use Rattle.sexp_text.specs.Reading.{Gives, refused};
ghost use Rattle.sexp_text.specs.declared.fault.TextWord.TheVariants as fault;
ghost use Rattle.notes_grammar.specs.Parts.{part_of};
ghost use Rattle.notes_grammar.specs.Shapes.{begins_name};
ghost use Rattle.notes_grammar.specs.Reading.{name_in, known_name, new_name};

use notes_parts::{Context, form, place, word};
use notes_terms::Entry;
use sexp_text::{Sexp, TextFault, TextWord};
use std::alloc::Global;
use wasm_values::Text;

/// Whether a word begins with a letter.
fn begins_name(bytes: &[u8]) -> bool
    ensures { result ≡ begins_name bytes.now }
{
    match bytes {
        [] => false,
        [b, ..] => 97 <= *b && *b <= 122,
    }
}

/// A word that begins with a letter.
#[tactic(auto, unfolding(notes_grammar::specs::Reading::name_in))]
fn name_in(part: &Sexp) -> Result<&Text, TextFault>
    ensures { Gives (λ n. n.now) result (name_in (part_of part.now)) }
{
    let text = word(part)?;
    if begins_name(text.as_str().as_bytes()) {
        return Ok(text);
    }
    form(place(part))
}

/// A name at this place that is made twice, or that nothing makes.
fn wrong_name<T>(at: usize) -> Result<T, TextFault>
    ensures { result ≡ refused at fault.Name }
{
    Err(TextFault::Refused {
        at,
        word: TextWord::Name,
    })
}

/// A name that some lemma has.
#[tactic(auto, unfolding(notes_grammar::specs::Reading::known_name))]
pub fn read_known_name(alloc: Global, context: &Context, part: &Sexp) -> Result<Text, TextFault>
    ensures { Gives (λ n. n) result (known_name context.now.names (part_of part.now)) }
{
    let text = name_in(part)?;
    if context.has(text.as_str()) {
        return Ok(text.copy(alloc)?);
    }
    wrong_name(place(part))
}

/// A name that no lemma has.
#[tactic(auto, unfolding(notes_grammar::specs::Reading::new_name))]
pub fn read_new_name(alloc: Global, context: &Context, part: &Sexp) -> Result<Text, TextFault>
    ensures { Gives (λ n. n) result (new_name context.now.names (part_of part.now)) }
{
    let text = name_in(part)?;
    if context.has(text.as_str()) {
        return wrong_name(place(part));
    }
    Ok(text.copy(alloc)?)
}

/// Names that lemmas have.
pub struct KnownNames;

impl Entry<Text> for KnownNames {
    ghost reads = { λ c. known_name c.names };

    fn read(alloc: Global, context: &Context, part: &Sexp) -> Result<Text, TextFault> {
        read_known_name(alloc, context, part)
    }
}

/// Names that no lemma has.
pub struct NewNames;

impl Entry<Text> for NewNames {
    ghost reads = { λ c. new_name c.names };

    fn read(alloc: Global, context: &Context, part: &Sexp) -> Result<Text, TextFault> {
        read_new_name(alloc, context, part)
    }
}
