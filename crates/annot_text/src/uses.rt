// Takes, and what instructions are given.

ghost use Rattle.std.specs.Prelude.{◌≡◌, ◌∷◌, [], IfOk};
ghost use Rattle.sexp_text.specs.Reading.{Gives};
ghost use Rattle.notes_grammar.specs.Parts.{part_of, parts_of};
ghost use Rattle.notes_grammar.specs.Reading.{take_in, safe_list, more_safe};
ghost use Rattle.notes_parts.specs.Seen.{headed_seen};
ghost use Rattle.annot_text.specs.words.Uses.{take_parts, take_read, use_kind, both_read, loop_read, skip_read, use_formed};

use notes::{Assertion, Move, Take, Use, With};
use notes_grammar::Head;
use notes_moves::{Assertions, Moves, Withs, read_with_list};
use notes_parts::{Context, Headed, ended, small, tagged};
use notes_terms::{Entry, Lists, Smalls, entries, entry_field, whole_one, whole_two};
use sexp_text::{Sexp, TextFault};
use std::alloc::Global;
use wasm_values::{List, OutOfMemory};

/// The take of these parts.
fn take_parts(
    alloc: Global,
    context: &Context,
    close: usize,
    parts: &[Sexp],
) -> Result<Take, TextFault>
    ensures { Gives (λ t. t) result (take_parts context.now close (parts_of parts.now)) }
{
    let (moves, with) = whole_two::<List<Move>, Lists<Moves>, With, Withs>(
        alloc, context, close, parts,
    )?;
    Ok(Take { moves, with })
}

/// The take of a list's parts.
fn take_of_parts(alloc: Global, context: &Context, part: &Sexp) -> Result<Take, TextFault>
    ensures { Gives (λ t. t) result (take_read context.now (part_of part.now)) }
{
    let (parts, close) = tagged("take", part)?;
    take_parts(alloc, context, close, parts)
}

/// A take.
pub(crate) fn read_take(alloc: Global, context: &Context, part: &Sexp) -> Result<Take, TextFault>
    ensures { Gives (λ t. t) result (take_in context.now (part_of part.now)) }
{
    take_of_parts(alloc, context, part)
}

/// Takes.
pub(crate) struct Takes;

impl Entry<Take> for Takes {
    ghost reads = { λ c. take_in c };

    fn read(alloc: Global, context: &Context, part: &Sexp) -> Result<Take, TextFault> {
        read_take(alloc, context, part)
    }
}

/// What a list that is a use is made of.
#[derive(Clone, Copy)]
pub(crate) enum UseKind {
    With,
    Cell,
    Safe,
    Trap,
    Take,
    Table,
    Both,
    Label,
    Loop,
    Skip,
}

/// The kind of a use whose list begins with this head, if it is a use.
pub(crate) fn use_kind(head: Head) -> Option<UseKind>
    ensures { result ≡ use_kind head }
{
    match head {
        Head::With => Some(UseKind::With),
        Head::Cell => Some(UseKind::Cell),
        Head::Safe => Some(UseKind::Safe),
        Head::Trap => Some(UseKind::Trap),
        Head::Take => Some(UseKind::Take),
        Head::Table => Some(UseKind::Table),
        Head::Both => Some(UseKind::Both),
        Head::Label => Some(UseKind::Label),
        Head::Loop => Some(UseKind::Loop),
        Head::Skip => Some(UseKind::Skip),
        _ => None,
    }
}

/// A list of one number.
fn one_fact(alloc: Global, first: u32) -> Result<List<u32>, OutOfMemory>
    ensures { IfOk result (λ fs. fs ≡ first ∷ []) }
{
    let mut facts = List::new(alloc);
    facts.push(first)?;
    Ok(facts)
}

/// A list of two numbers.
fn two_facts(alloc: Global, first: u32, second: u32) -> Result<List<u32>, OutOfMemory>
    ensures { IfOk result (λ fs. fs ≡ first ∷ second ∷ []) }
{
    let mut facts = List::new(alloc);
    facts.push(first)?;
    facts.push(second)?;
    Ok(facts)
}

/// The `safe` of this fact and, if there is a part more, one more.
fn more_safe(alloc: Global, first: u32, parts: &[Sexp]) -> Result<Use, TextFault>
    ensures { Gives (λ u. u) result (more_safe first (parts_of parts.now)) }
{
    match parts {
        [] => Ok(Use::Safe(one_fact(alloc, first)?)),
        [part, rest @ ..] => {
            let second = small(part)?;
            let facts = two_facts(alloc, first, second)?;
            ended(Use::Safe(facts), rest)
        }
    }
}

/// The `safe` of these parts.
#[tactic(auto, unfolding(notes_grammar::specs::Reading::safe_list))]
fn read_safe(
    alloc: Global,
    context: &Context,
    close: usize,
    parts: &[Sexp],
) -> Result<Use, TextFault>
    ensures { Gives (λ u. u) result (safe_list close (parts_of parts.now)) }
{
    let (first, rest) = entry_field::<u32, Smalls>(alloc, context, close, parts)?;
    more_safe(alloc, first, rest)
}

/// The `both` of these parts.
fn read_both(
    alloc: Global,
    context: &Context,
    close: usize,
    parts: &[Sexp],
) -> Result<Use, TextFault>
    ensures { Gives (λ u. u) result (both_read context.now.later close (parts_of parts.now)) }
{
    let (invariant, pre) = whole_two::<With, Withs, With, Withs>(alloc, context, close, parts)?;
    Ok(Use::Both(invariant, pre))
}

/// The `loop` of these parts.
fn read_loop(
    alloc: Global,
    context: &Context,
    close: usize,
    parts: &[Sexp],
) -> Result<Use, TextFault>
    ensures { Gives (λ u. u) result (loop_read context.now.later close (parts_of parts.now)) }
{
    let (assertion, with) = whole_two::<Assertion, Assertions, With, Withs>(
        alloc, context, close, parts,
    )?;
    Ok(Use::Loop(assertion, with))
}

/// The `skip` of these parts.
fn read_skip(
    alloc: Global,
    context: &Context,
    close: usize,
    parts: &[Sexp],
) -> Result<Use, TextFault>
    ensures { Gives (λ u. u) result (skip_read context.now close (parts_of parts.now)) }
{
    let (assertion, take) = whole_two::<Assertion, Assertions, Take, Takes>(
        alloc, context, close, parts,
    )?;
    Ok(Use::Skip(assertion, take))
}

/// The use of a list of this kind.
pub(crate) fn use_formed(
    alloc: Global,
    context: &Context,
    kind: UseKind,
    headed: &Headed<'_>,
) -> Result<Use, TextFault>
    ensures { Gives (λ u. u) result (use_formed context.now kind (headed_seen headed.now)) }
{
    let close = headed.close;
    let rest = headed.rest;
    match kind {
        UseKind::With => read_with_list(alloc, context, close, rest).map(Use::With),
        UseKind::Cell => whole_one::<u32, Smalls>(alloc, context, close, rest).map(Use::Cell),
        UseKind::Safe => read_safe(alloc, context, close, rest),
        UseKind::Trap => whole_one::<With, Withs>(alloc, context, close, rest).map(Use::Trap),
        UseKind::Take => take_parts(alloc, context, close, rest).map(Use::Take),
        UseKind::Table => entries::<Take, Takes>(alloc, context, rest).map(Use::Table),
        UseKind::Both => read_both(alloc, context, close, rest),
        UseKind::Label => {
            whole_one::<Assertion, Assertions>(alloc, context, close, rest).map(Use::Label)
        }
        UseKind::Loop => read_loop(alloc, context, close, rest),
        UseKind::Skip => read_skip(alloc, context, close, rest),
    }
}
