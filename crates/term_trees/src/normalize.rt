ghost use Rattle.std.specs.Prelude.{◌≡◌, option_and_then, IfOk, IfSome, IsTrue};
ghost use Rattle.std.specs.Option.{option_map};
ghost use Rattle.term_trees.specs.Terms.{well_formed};
ghost use Rattle.term_trees.specs.Ground.{both};
ghost use Rattle.term_trees.specs.Normal.{nonzero, normal_form, well_formed_normal};
ghost use Rattle.term_trees.specs.Linear.{Parts, shown_lent, shown_tree, joined, joined_product, linear_parts};

use crate::atoms::Lent;
use crate::forms::Normal;
use crate::linear::{Linear, Way, atom, joined, number, product};
use crate::term::Term;
use std::alloc::Global;
use wasm_values::{List, OutOfMemory};

fn both_joined<'a>(
    alloc: Global,
    way: Way,
    forms: Option<(Linear<&'a Term>, Linear<&'a Term>)>,
) -> Result<Option<Linear<&'a Term>>, OutOfMemory>
    ensures { IfOk result (λ o. option_map shown_tree o ≡ option_and_then (λ (p : Parts × Parts). joined way p.0 p.1) (option_map (λ p. (shown_tree p.0, shown_tree p.1)) forms.entry)) }
{
    match forms {
        Some((first, second)) => joined(alloc, &Lent, way, &first, &second),
        None => Ok(None),
    }
}

fn both_multiplied<'a>(
    alloc: Global,
    t: &'a Term,
    forms: Option<(Linear<&'a Term>, Linear<&'a Term>)>,
) -> Result<Option<Linear<&'a Term>>, OutOfMemory>
    ensures { IfOk result (λ o. option_map shown_tree o ≡ option_and_then (λ (p : Parts × Parts). joined_product t.now p.0 p.1) (option_map (λ p. (shown_tree p.0, shown_tree p.1)) forms.entry)) }
{
    match forms {
        Some((first, second)) => product(alloc, &Lent, t, &first, &second),
        None => Ok(None),
    }
}

#[cycle(forms)]
fn two_forms<'a>(
    alloc: Global,
    a: &'a Term,
    b: &'a Term,
) -> Result<Option<(Linear<&'a Term>, Linear<&'a Term>)>, OutOfMemory>
    ensures { IfOk result (λ o. option_map (λ p. (shown_tree p.0, shown_tree p.1)) o ≡ both (linear_parts a.now) (linear_parts b.now)) }
{
    let Some(first) = form_of(alloc, a)? else {
        return Ok(None);
    };
    let Some(second) = form_of(alloc, b)? else {
        return Ok(None);
    };
    Ok(Some((first, second)))
}

/// The linear form of a term, where the forms of all terms on the way fit.
#[cycle(forms)]
#[tactic(auto, using(crate::proofs::LinearForms::linear_forms))]
fn form_of<'a>(alloc: Global, t: &'a Term) -> Result<Option<Linear<&'a Term>>, OutOfMemory>
    ensures { IfOk result (λ o. option_map shown_tree o ≡ linear_parts t.now) }
{
    match t {
        Term::Num(n) => Ok(number(alloc, &Lent, *n)),
        Term::Add(a, b) => both_joined(alloc, Way::Sum, two_forms(alloc, a.get(), b.get())?),
        Term::Sub(a, b) => both_joined(alloc, Way::Difference, two_forms(alloc, a.get(), b.get())?),
        Term::Mul(a, b) => both_multiplied(alloc, t, two_forms(alloc, a.get(), b.get())?),
        Term::Var(_) | Term::Own(_) | Term::At(_) => atom(alloc, &Lent, t),
        Term::One(_, _) | Term::Two(_, _, _) => atom(alloc, &Lent, t),
        Term::Low(_, _) | Term::Sext(_, _, _) | Term::Sgn(_, _) => atom(alloc, &Lent, t),
    }
}

/// The parts whose coefficient is not 0.
fn nonzero(alloc: Global, parts: &[(&Term, i128)]) -> Result<List<(Term, i128)>, OutOfMemory>
    ensures { IfOk result (λ l. l ≡ nonzero (shown_lent parts.now)) }
{
    let mut kept = List::new(alloc);
    for (atom, coefficient) in parts {
        if *coefficient != 0 {
            kept.push((atom.copy(alloc)?, *coefficient))?;
        }
    }
    Ok(kept)
}

/// The linear normal form of a term. `None` comes exactly where a number on the way is too great.
pub fn normal(alloc: Global, t: &Term) -> Result<Option<Normal>, OutOfMemory>
    requires { IsTrue (well_formed t.now) }
    ensures form { IfOk result (λ o. o ≡ normal_form t.now) }
    ensures well_formed { IfOk result (λ o. IfSome o (λ f. IsTrue (well_formed_normal f))) }
{
    let Some(form) = form_of(alloc, t)? else {
        return Ok(None);
    };
    let parts = nonzero(alloc, &form.parts)?;
    Ok(Some(Normal {
        constant: form.constant,
        parts,
    }))
}
