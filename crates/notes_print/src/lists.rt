// Lists of what is printed alike, and lists that begin with a word.

ghost use Rattle.std.specs.Prelude.{◌≡◌, ◌++◌, ◌∷◌, [], map, OnOk};
ghost use Rattle.notes_grammar.specs.Printed.{printed_tree, printed_more};
ghost use Rattle.notes_grammar.specs.Shapes.{word, listed, trees_in};

use crate::bytes::{close, open};
use std::alloc::Global;
use std::marker::PhantomData;
use wasm_values::{Bytes, List, OutOfMemory};

/// A way to print a part of notes.
pub(crate) trait Print<X> {
    ghost use Rattle.notes_grammar.specs.Shapes.{Shape};

    /// The shape of what is printed.
    ghost shape: { X → Shape };

    /// Adds the part at the end.
    fn print(alloc: Global, out: &mut Bytes, value: &X) -> Result<(), OutOfMemory>
        ensures { OnOk result (out.new ≡ out.old ++ printed_tree (shape value.now).tree) };
}

/// A space, and the part.
#[tactic(auto, using(crate::proofs::ListLemmas::one_more))]
pub(crate) fn more_one<X, P: Print<X>>(
    alloc: Global,
    out: &mut Bytes,
    x: &X,
) -> Result<(), OutOfMemory>
    ensures { OnOk result (out.new ≡ out.old ++ printed_more (trees_in (P.shape x.now ∷ []))) }
{
    out.push(b' ')?;
    P::print(alloc, out, x)
}

/// Two parts, with a space before each.
#[tactic(auto, using(crate::proofs::ListLemmas::more_then))]
pub(crate) fn more_two<X, P: Print<X>, Y, Q: Print<Y>>(
    alloc: Global,
    out: &mut Bytes,
    x: &X,
    y: &Y,
) -> Result<(), OutOfMemory>
    ensures { OnOk result (out.new ≡ out.old ++ printed_more (trees_in (P.shape x.now ∷ Q.shape y.now ∷ []))) }
{
    more_one::<X, P>(alloc, out, x)?;
    more_one::<Y, Q>(alloc, out, y)
}

/// Three parts, with a space before each.
#[tactic(auto, using(crate::proofs::ListLemmas::more_then))]
pub(crate) fn more_three<X, P: Print<X>, Y, Q: Print<Y>, Z, R: Print<Z>>(
    alloc: Global,
    out: &mut Bytes,
    x: &X,
    y: &Y,
    z: &Z,
) -> Result<(), OutOfMemory>
    ensures { OnOk result (out.new ≡ out.old ++ printed_more (trees_in (P.shape x.now ∷ Q.shape y.now ∷ R.shape z.now ∷ []))) }
{
    more_one::<X, P>(alloc, out, x)?;
    more_two::<Y, Q, Z, R>(alloc, out, y, z)
}

/// Four parts, with a space before each.
#[tactic(auto, using(crate::proofs::ListLemmas::more_then))]
pub(crate) fn more_four<X, P: Print<X>, Y, Q: Print<Y>, Z, R: Print<Z>, W, S: Print<W>>(
    alloc: Global,
    out: &mut Bytes,
    x: &X,
    y: &Y,
    z: &Z,
    w: &W,
) -> Result<(), OutOfMemory>
    ensures { OnOk result (out.new ≡ out.old ++ printed_more (trees_in (P.shape x.now ∷ Q.shape y.now ∷ R.shape z.now ∷ S.shape w.now ∷ []))) }
{
    more_two::<X, P, Y, Q>(alloc, out, x, y)?;
    more_two::<Z, R, W, S>(alloc, out, z, w)
}

/// Parts that are printed alike, with a space before each.
#[tactic(auto, using(crate::proofs::ListLemmas::items_step, crate::proofs::ListLemmas::items_end))]
pub(crate) fn more_items<X, P: Print<X>>(
    alloc: Global,
    out: &mut Bytes,
    items: &[X],
) -> Result<(), OutOfMemory>
    ensures { OnOk result (out.new ≡ out.old ++ printed_more (trees_in (map P.shape items.now))) }
{
    for item in items {
        more_one::<X, P>(alloc, out, item)?;
    }
    Ok(())
}

/// A list of parts that are printed alike.
fn print_list<X, P: Print<X>>(
    alloc: Global,
    out: &mut Bytes,
    items: &[X],
) -> Result<(), OutOfMemory>
    ensures { OnOk result (out.new ≡ out.old ++ printed_tree (listed (map P.shape items.now)).tree) }
{
    out.push(b'(')?;
    if let [first, rest @ ..] = items {
        P::print(alloc, out, first)?;
        more_items::<X, P>(alloc, out, rest)?;
    }
    close(out)
}

/// Lists of parts that are printed alike.
pub(crate) struct Lists<P> {
    entry: PhantomData<P>,
}

impl<X, P: Print<X>> Print<List<X>> for Lists<P> {
    ghost use Rattle.std.specs.Prelude.{map};
    ghost use Rattle.notes_grammar.specs.Shapes.{listed};

    ghost shape = { λ xs. listed (map P.shape xs) };

    fn print(alloc: Global, out: &mut Bytes, value: &List<X>) -> Result<(), OutOfMemory> {
        print_list::<X, P>(alloc, out, value.as_slice())
    }
}

/// A word and a part.
#[tactic(auto, using(crate::proofs::ListLemmas::closed))]
pub(crate) fn print_one<X, P: Print<X>>(
    alloc: Global,
    out: &mut Bytes,
    tag: &str,
    x: &X,
) -> Result<(), OutOfMemory>
    ensures { OnOk result (out.new ≡ out.old ++ printed_tree (listed (word tag.now ∷ P.shape x.now ∷ [])).tree) }
{
    open(out, tag)?;
    more_one::<X, P>(alloc, out, x)?;
    close(out)
}

/// A word and two parts.
#[tactic(auto, using(crate::proofs::ListLemmas::closed))]
pub(crate) fn print_two<X, P: Print<X>, Y, Q: Print<Y>>(
    alloc: Global,
    out: &mut Bytes,
    tag: &str,
    x: &X,
    y: &Y,
) -> Result<(), OutOfMemory>
    ensures { OnOk result (out.new ≡ out.old ++ printed_tree (listed (word tag.now ∷ P.shape x.now ∷ Q.shape y.now ∷ [])).tree) }
{
    open(out, tag)?;
    more_two::<X, P, Y, Q>(alloc, out, x, y)?;
    close(out)
}

/// A word and three parts.
#[tactic(auto, using(crate::proofs::ListLemmas::closed))]
pub(crate) fn print_three<X, P: Print<X>, Y, Q: Print<Y>, Z, R: Print<Z>>(
    alloc: Global,
    out: &mut Bytes,
    tag: &str,
    x: &X,
    y: &Y,
    z: &Z,
) -> Result<(), OutOfMemory>
    ensures { OnOk result (out.new ≡ out.old ++ printed_tree (listed (word tag.now ∷ P.shape x.now ∷ Q.shape y.now ∷ R.shape z.now ∷ [])).tree) }
{
    open(out, tag)?;
    more_three::<X, P, Y, Q, Z, R>(alloc, out, x, y, z)?;
    close(out)
}

/// A word and four parts.
#[tactic(auto, using(crate::proofs::ListLemmas::closed))]
pub(crate) fn print_four<X, P: Print<X>, Y, Q: Print<Y>, Z, R: Print<Z>, W, S: Print<W>>(
    alloc: Global,
    out: &mut Bytes,
    tag: &str,
    x: &X,
    y: &Y,
    z: &Z,
    w: &W,
) -> Result<(), OutOfMemory>
    ensures { OnOk result (out.new ≡ out.old ++ printed_tree (listed (word tag.now ∷ P.shape x.now ∷ Q.shape y.now ∷ R.shape z.now ∷ S.shape w.now ∷ [])).tree) }
{
    open(out, tag)?;
    more_four::<X, P, Y, Q, Z, R, W, S>(alloc, out, x, y, z, w)?;
    close(out)
}

/// A word and parts that are printed alike.
#[tactic(auto, using(crate::proofs::ListLemmas::closed))]
pub(crate) fn print_items<X, P: Print<X>>(
    alloc: Global,
    out: &mut Bytes,
    tag: &str,
    items: &[X],
) -> Result<(), OutOfMemory>
    ensures { OnOk result (out.new ≡ out.old ++ printed_tree (listed (word tag.now ∷ map P.shape items.now)).tree) }
{
    open(out, tag)?;
    more_items::<X, P>(alloc, out, items)?;
    close(out)
}

/// A part and then parts that are printed alike, with a space before each.
#[tactic(auto, using(crate::proofs::ListLemmas::more_then))]
pub(crate) fn more_one_items<X, P: Print<X>, Y, Q: Print<Y>>(
    alloc: Global,
    out: &mut Bytes,
    x: &X,
    items: &[Y],
) -> Result<(), OutOfMemory>
    ensures { OnOk result (out.new ≡ out.old ++ printed_more (trees_in (P.shape x.now ∷ map Q.shape items.now))) }
{
    more_one::<X, P>(alloc, out, x)?;
    more_items::<Y, Q>(alloc, out, items)
}

/// Two parts and then parts that are printed alike, with a space before each.
#[tactic(auto, using(crate::proofs::ListLemmas::more_then))]
pub(crate) fn more_two_items<X, P: Print<X>, Y, Q: Print<Y>, Z, R: Print<Z>>(
    alloc: Global,
    out: &mut Bytes,
    x: &X,
    y: &Y,
    items: &[Z],
) -> Result<(), OutOfMemory>
    ensures { OnOk result (out.new ≡ out.old ++ printed_more (trees_in (P.shape x.now ∷ Q.shape y.now ∷ map R.shape items.now))) }
{
    more_one::<X, P>(alloc, out, x)?;
    more_one_items::<Y, Q, Z, R>(alloc, out, y, items)
}

/// A word, a part and then parts that are printed alike.
#[tactic(auto, using(crate::proofs::ListLemmas::closed))]
pub(crate) fn print_one_items<X, P: Print<X>, Y, Q: Print<Y>>(
    alloc: Global,
    out: &mut Bytes,
    tag: &str,
    x: &X,
    items: &[Y],
) -> Result<(), OutOfMemory>
    ensures { OnOk result (out.new ≡ out.old ++ printed_tree (listed (word tag.now ∷ P.shape x.now ∷ map Q.shape items.now)).tree) }
{
    open(out, tag)?;
    more_one_items::<X, P, Y, Q>(alloc, out, x, items)?;
    close(out)
}

/// A word, two parts and then parts that are printed alike.
#[tactic(auto, using(crate::proofs::ListLemmas::closed))]
pub(crate) fn print_two_items<X, P: Print<X>, Y, Q: Print<Y>, Z, R: Print<Z>>(
    alloc: Global,
    out: &mut Bytes,
    tag: &str,
    x: &X,
    y: &Y,
    items: &[Z],
) -> Result<(), OutOfMemory>
    ensures { OnOk result (out.new ≡ out.old ++ printed_tree (listed (word tag.now ∷ P.shape x.now ∷ Q.shape y.now ∷ map R.shape items.now)).tree) }
{
    open(out, tag)?;
    more_two_items::<X, P, Y, Q, Z, R>(alloc, out, x, y, items)?;
    close(out)
}
