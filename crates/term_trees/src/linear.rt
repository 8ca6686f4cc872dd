ghost use Rattle.std.specs.Prelude.{◌≡◌, ◌∷◌, ◌++◌, [], pos, IfOk, IfSome, option_and_then};
ghost use Rattle.std.specs.Option.{option_map};
ghost use Rattle.term_trees.specs.Normal.{is_low};
ghost use Rattle.term_trees.specs.Linear.{shown, shown_form, PartsWithin, coefficient_in, occurs_in, applied, limited, limited_parts, kept_parts, fresh_parts, joined, joined_product, is_constant_parts};

use crate::atoms::Atoms;
use std::alloc::Global;
use wasm_values::OutOfMemory;

/// How two linear forms are taken together.
#[derive(Clone, Copy)]
pub enum Way {
    Sum,
    Difference,
    /// The second form times this number.
    Times(i128),
    /// The first form by this number.
    By(i128),
}

/// A linear form, each of its terms in one part.
#[derive(Drop)]
pub struct Linear<X> {
    pub constant: i128,
    pub parts: Vec<(X, i128)>,
}

/// The end of the absolute values of constants and coefficients.
const END: i128 = 1 << 96;

fn is_low(value: i128) -> bool
    ensures { result ≡ is_low value }
{
    -END < value && value < END
}

fn limited(value: Option<i128>) -> Option<i128>
    ensures { result ≡ option_and_then limited value }
{
    match value {
        Some(value) => { if is_low(value) { Some(value) } else { None } }
        None => None,
    }
}

/// What two numbers are taken to, where it is low.
fn applied(way: Way, x: i128, y: i128) -> Option<i128>
    ensures { result ≡ limited (applied way x y) }
{
    match way {
        Way::Sum => limited(x.checked_add(y)),
        Way::Difference => limited(x.checked_sub(y)),
        Way::Times(c) => limited(c.checked_mul(y)),
        Way::By(c) => limited(x.checked_mul(c)),
    }
}

/// The coefficient of a term among some parts: 0 where it is none of them.
pub fn coefficient_in<X: Copy, A: Atoms<X>>(atoms: &A, parts: &[(X, i128)], t: X) -> i128
    requires parts { PartsWithin (A.Within atoms.now) parts.now }
    requires term { A.Within atoms.now t }
    ensures { result ≡ coefficient_in (shown (A.tree atoms.now) parts.now) (A.tree atoms.now t) }
{
    for (atom, coefficient) in parts {
        if atoms.same(*atom, t) {
            return *coefficient;
        }
    }
    0
}

/// Whether a term is one of the parts.
fn occurs_in<X: Copy, A: Atoms<X>>(atoms: &A, parts: &[(X, i128)], t: X) -> bool
    requires parts { PartsWithin (A.Within atoms.now) parts.now }
    requires term { A.Within atoms.now t }
    ensures { result ≡ occurs_in (shown (A.tree atoms.now) parts.now) (A.tree atoms.now t) }
{
    for (atom, _) in parts {
        if atoms.same(*atom, t) {
            return true;
        }
    }
    false
}

/// Whether no part has a coefficient other than 0.
fn is_constant<X: Copy, A: Atoms<X>>(atoms: &A, parts: &[(X, i128)]) -> bool
    ensures { result ≡ is_constant_parts (shown (A.tree atoms.now) parts.now) }
{
    let _ = atoms;
    for (_, coefficient) in parts {
        if *coefficient != 0 {
            return false;
        }
    }
    true
}

/// One part more.
fn push<X: Copy>(parts: &mut Vec<(X, i128)>, atom: X, coefficient: i128) -> Result<(), OutOfMemory>
    ensures { IfOk result (λ _. parts.new.items ≡ parts.old.items ++ (atom, coefficient) ∷ []) }
{
    match parts.push((atom, coefficient)) {
        Ok(()) => Ok(()),
        Err(_) => Err(OutOfMemory),
    }
}

/// The first parts, each taken together with what the second have of its term.
fn kept_parts<X: Copy, A: Atoms<X>>(
    alloc: Global,
    atoms: &A,
    way: Way,
    first: &[(X, i128)],
    second: &[(X, i128)],
) -> Result<Option<Vec<(X, i128)>>, OutOfMemory>
    requires first { PartsWithin (A.Within atoms.now) first.now }
    requires second { PartsWithin (A.Within atoms.now) second.now }
    ensures parts { IfOk result (λ o. option_map (λ v. shown (A.tree atoms.now) v.items) o ≡ limited_parts (kept_parts way (shown (A.tree atoms.now) first.now) (shown (A.tree atoms.now) second.now))) }
    ensures within { IfOk result (λ o. IfSome o (λ v. PartsWithin (A.Within atoms.now) v.items)) }
{
    let mut parts = Vec::new(alloc);
    for (atom, coefficient) in first {
        let Some(sum) = applied(way, *coefficient, coefficient_in(atoms, second, *atom)) else {
            return Ok(None);
        };
        push(&mut parts, *atom, sum)?;
    }
    Ok(Some(parts))
}

/// The second parts whose terms are none of the first.
fn fresh_parts<X: Copy, A: Atoms<X>>(
    alloc: Global,
    atoms: &A,
    way: Way,
    first: &[(X, i128)],
    second: &[(X, i128)],
) -> Result<Option<Vec<(X, i128)>>, OutOfMemory>
    requires first { PartsWithin (A.Within atoms.now) first.now }
    requires second { PartsWithin (A.Within atoms.now) second.now }
    ensures parts { IfOk result (λ o. option_map (λ v. shown (A.tree atoms.now) v.items) o ≡ limited_parts (fresh_parts way (shown (A.tree atoms.now) first.now) (shown (A.tree atoms.now) second.now))) }
    ensures within { IfOk result (λ o. IfSome o (λ v. PartsWithin (A.Within atoms.now) v.items)) }
{
    let mut parts = Vec::new(alloc);
    for (atom, coefficient) in second {
        if occurs_in(atoms, first, *atom) {
            continue;
        }
        let Some(sum) = applied(way, 0, *coefficient) else {
            return Ok(None);
        };
        push(&mut parts, *atom, sum)?;
    }
    Ok(Some(parts))
}

/// The form of a term that is an atom, which always fits.
pub fn atom<X: Copy, A: Atoms<X>>(
    alloc: Global,
    atoms: &A,
    t: X,
) -> Result<Option<Linear<X>>, OutOfMemory>
    requires { A.Within atoms.now t }
    ensures form { IfOk result (λ o. option_map (shown_form (A.tree atoms.now)) o ≡ Some (pos 0, (A.tree atoms.now t, pos 1) ∷ [])) }
    ensures within { IfOk result (λ o. IfSome o (λ l. PartsWithin (A.Within atoms.now) l.parts.items)) }
{
    let _ = atoms;
    let mut parts = Vec::new(alloc);
    push(&mut parts, t, 1)?;
    Ok(Some(Linear { constant: 0, parts }))
}

/// The form of a number, where it is low.
pub fn number<X: Copy, A: Atoms<X>>(alloc: Global, atoms: &A, n: i128) -> Option<Linear<X>>
    ensures form { option_map (shown_form (A.tree atoms.now)) result ≡ option_map (λ c. (c, [])) (limited n) }
    ensures within { IfSome result (λ l. PartsWithin (A.Within atoms.now) l.parts.items) }
{
    let _ = atoms;
    if is_low(n) {
        Some(Linear {
            constant: n,
            parts: Vec::new(alloc),
        })
    } else {
        None
    }
}

/// The first parts and then the second.
fn followed<X: Copy>(
    mut first: Vec<(X, i128)>,
    second: &[(X, i128)],
) -> Result<Vec<(X, i128)>, OutOfMemory>
    ensures { IfOk result (λ v. v.items ≡ first.items ++ second.now) }
{
    match first.extend_from_slice(second) {
        Ok(()) => Ok(first),
        Err(_) => Err(OutOfMemory),
    }
}

/// Two forms taken together, where the constant and all coefficients are low.
pub fn joined<X: Copy, A: Atoms<X>>(
    alloc: Global,
    atoms: &A,
    way: Way,
    first: &Linear<X>,
    second: &Linear<X>,
) -> Result<Option<Linear<X>>, OutOfMemory>
    requires first { PartsWithin (A.Within atoms.now) first.now.parts.items }
    requires second { PartsWithin (A.Within atoms.now) second.now.parts.items }
    ensures form { IfOk result (λ o. option_map (shown_form (A.tree atoms.now)) o ≡ joined way (shown_form (A.tree atoms.now) first.now) (shown_form (A.tree atoms.now) second.now)) }
    ensures within { IfOk result (λ o. IfSome o (λ l. PartsWithin (A.Within atoms.now) l.parts.items)) }
{
    let Some(constant) = applied(way, first.constant, second.constant) else {
        return Ok(None);
    };
    let Some(parts) = kept_parts(alloc, atoms, way, &first.parts, &second.parts)? else {
        return Ok(None);
    };
    let Some(fresh) = fresh_parts(alloc, atoms, way, &first.parts, &second.parts)? else {
        return Ok(None);
    };
    let parts = followed(parts, &fresh)?;
    Ok(Some(Linear { constant, parts }))
}

/// The form of the product `t` of two terms with these forms.
pub fn product<X: Copy, A: Atoms<X>>(
    alloc: Global,
    atoms: &A,
    t: X,
    first: &Linear<X>,
    second: &Linear<X>,
) -> Result<Option<Linear<X>>, OutOfMemory>
    requires term { A.Within atoms.now t }
    requires first { PartsWithin (A.Within atoms.now) first.now.parts.items }
    requires second { PartsWithin (A.Within atoms.now) second.now.parts.items }
    ensures form { IfOk result (λ o. option_map (shown_form (A.tree atoms.now)) o ≡ joined_product (A.tree atoms.now t) (shown_form (A.tree atoms.now) first.now) (shown_form (A.tree atoms.now) second.now)) }
    ensures within { IfOk result (λ o. IfSome o (λ l. PartsWithin (A.Within atoms.now) l.parts.items)) }
{
    if is_constant(atoms, &first.parts) {
        joined(alloc, atoms, Way::Times(first.constant), first, second)
    } else if is_constant(atoms, &second.parts) {
        joined(alloc, atoms, Way::By(second.constant), first, second)
    } else {
        atom(alloc, atoms, t)
    }
}
