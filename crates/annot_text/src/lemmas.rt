// Lemmas.

ghost use Rattle.std.specs.Prelude.{◌≡◌, ◌∷◌, ◌++◌, [], true, false, IfOk, IfErr, OnOk};
ghost use Rattle.sexp_text.specs.Reading.{Gives};
ghost use Rattle.notes_grammar.specs.Parts.{part_of, parts_of};
ghost use Rattle.notes_grammar.specs.Shapes.{is_among};
ghost use Rattle.notes_grammar.specs.Reading.{lemma_in, lemmas_first, lemmas_of};
ghost use Rattle.annot_text.specs.words.Lemmas.{lemma_parts, lemma_read};
ghost use Rattle.annot_text.specs.words.Wholes.{setting_of};

use bitvector_rules::Step;
use notes::Lemma;
use notes_moves::{NewNames, joined};
use notes_parts::{Context, is_tagged, tagged};
use notes_terms::{Formulas, Lists, Smalls, four_fields, read_steps};
use sexp_text::{Sexp, TextFault};
use std::alloc::Global;
use term_trees::Formula;
use wasm_values::{List, Text};

/// A lemma's name, number of variables, hypotheses and goal.
type Claim = (Text, u32, List<Formula>, Formula);

/// The parts of a lemma.
fn lemma_parts(
    alloc: Global,
    context: &Context,
    close: usize,
    parts: &[Sexp],
) -> Result<(Claim, List<Step>), TextFault>
    ensures { Gives (λ x. x) result (lemma_parts context.now close (parts_of parts.now)) }
{
    let (name, vars, hyps, goal, rest) = four_fields::<
        Text,
        NewNames,
        u32,
        Smalls,
        List<Formula>,
        Lists<Formulas>,
        Formula,
        Formulas,
    >(alloc, context, close, parts)?;
    joined((name, vars, hyps, goal), read_steps(alloc, context, rest))
}

/// The lemma of a list's parts.
fn lemma_of_parts(alloc: Global, context: &Context, part: &Sexp) -> Result<Lemma, TextFault>
    ensures { Gives (λ l. l) result (lemma_read context.now (part_of part.now)) }
{
    let (parts, close) = tagged("lemma", part)?;
    let ((name, vars, hyps, goal), steps) = lemma_parts(alloc, context, close, parts)?;
    Ok(Lemma {
        name,
        vars,
        hyps,
        goal,
        steps,
    })
}

/// A lemma after those of the context.
fn read_lemma(alloc: Global, context: &Context, part: &Sexp) -> Result<Lemma, TextFault>
    requires { context.now.later ≡ true }
    ensures given { Gives (λ l. l) result (lemma_in context.now.names (part_of part.now)) }
    ensures new { IfOk result (λ l. is_among context.now.names l.name ≡ false) }
{
    lemma_of_parts(alloc, context, part)
}

/// Adds the name of a lemma that is new, and the lemma.
fn add_lemma(context: &mut Context, lemmas: &mut List<Lemma>, lemma: Lemma) -> Result<(), TextFault>
    requires { is_among context.old.names lemma.name ≡ false }
    ensures lemmas { OnOk result (lemmas.new ≡ lemmas.old ++ lemma ∷ []) }
    ensures names { OnOk result (context.new.names ≡ context.old.names ++ lemma.name ∷ []) }
    ensures later { context.new.later ≡ context.old.later }
    ensures err { IfErr result (λ e. e ≡ TextFault.OutOfMemory) }
{
    context.push(lemma.name.as_str())?;
    lemmas.push(lemma)?;
    Ok(())
}

/// Lemmas at the front, whose names go into the context, and the parts after them.
fn read_lemmas<'a>(
    alloc: Global,
    context: &mut Context,
    parts: &'a [Sexp],
) -> Result<(List<Lemma>, &'a [Sexp]), TextFault>
    requires later { context.old.later ≡ true }
    requires names { context.old.names ≡ [] }
    ensures given { Gives (λ x. (x.0, parts_of x.1.now)) result (lemmas_first [] (parts_of parts.now)) }
    ensures context { IfOk result (λ x. context.new ≡ setting_of true x.0) }
{
    let mut lemmas = List::new(alloc);
    let mut rest = parts;
    while let [first, more @ ..] = rest {
        if !is_tagged("lemma", first) {
            return Ok((lemmas, rest));
        }
        let lemma = read_lemma(alloc, context, first)?;
        add_lemma(context, &mut lemmas, lemma)?;
        rest = more;
    }
    Ok((lemmas, rest))
}

/// The lemmas of notes, which version 1 has none of, and the parts after them.
pub(crate) fn lemmas_of<'a>(
    alloc: Global,
    context: &mut Context,
    parts: &'a [Sexp],
) -> Result<(List<Lemma>, &'a [Sexp]), TextFault>
    requires { context.old.names ≡ [] }
    ensures given { Gives (λ x. (x.0, parts_of x.1.now)) result (lemmas_of context.old.later (parts_of parts.now)) }
    ensures context { IfOk result (λ x. context.new ≡ setting_of context.old.later x.0) }
{
    if !context.is_later() {
        return Ok((List::new(alloc), parts));
    }
    read_lemmas(alloc, context, parts)
}
