//! Whether two formulas are the same tree.

ghost use Rattle.std.specs.Prelude.{◌≡◌};
ghost use Rattle.std.specs.Option.{option_map};
ghost use Rattle.term_trees.specs.Same.{same_formula};
ghost use Rattle.term_trees.specs.Views.{is_true, is_false, eq_of, le_of, lt_of, not_of, and_of, or_of, imp_of};
ghost use Rattle.outline_setting.specs.words.Trees.{same_formulas};

use term_trees::{Formula, Term, same_parts};

/// The sides of an equation.
fn eq_of(f: &Formula) -> Option<(&Term, &Term)>
    ensures { option_map (λ p. (p.0.now, p.1.now)) result ≡ eq_of f.now }
{
    match f {
        Formula::Eq(a, b) => Some((a, b)),
        _ => None,
    }
}

/// The sides of `a <= b`.
fn le_of(f: &Formula) -> Option<(&Term, &Term)>
    ensures { option_map (λ p. (p.0.now, p.1.now)) result ≡ le_of f.now }
{
    match f {
        Formula::Le(a, b) => Some((a, b)),
        _ => None,
    }
}

/// The sides of `a < b`.
fn lt_of(f: &Formula) -> Option<(&Term, &Term)>
    ensures { option_map (λ p. (p.0.now, p.1.now)) result ≡ lt_of f.now }
{
    match f {
        Formula::Lt(a, b) => Some((a, b)),
        _ => None,
    }
}

/// What a negation denies.
fn not_of(f: &Formula) -> Option<&Formula>
    ensures { option_map (λ g. g.now) result ≡ not_of f.now }
{
    match f {
        Formula::Not(g) => Some(g.get()),
        _ => None,
    }
}

/// The parts of a conjunction.
fn and_of(f: &Formula) -> Option<(&Formula, &Formula)>
    ensures { option_map (λ p. (p.0.now, p.1.now)) result ≡ and_of f.now }
{
    match f {
        Formula::And(g, h) => Some((g.get(), h.get())),
        _ => None,
    }
}

/// The parts of a disjunction.
fn or_of(f: &Formula) -> Option<(&Formula, &Formula)>
    ensures { option_map (λ p. (p.0.now, p.1.now)) result ≡ or_of f.now }
{
    match f {
        Formula::Or(g, h) => Some((g.get(), h.get())),
        _ => None,
    }
}

/// The premise and the conclusion of an implication.
fn imp_of(f: &Formula) -> Option<(&Formula, &Formula)>
    ensures { option_map (λ p. (p.0.now, p.1.now)) result ≡ imp_of f.now }
{
    match f {
        Formula::Imp(g, h) => Some((g.get(), h.get())),
        _ => None,
    }
}

/// Whether the formula is `true`.
fn is_true(f: &Formula) -> bool
    ensures { result ≡ is_true f.now }
{
    matches!(f, Formula::True)
}

/// Whether the formula is `false`.
fn is_false(f: &Formula) -> bool
    ensures { result ≡ is_false f.now }
{
    matches!(f, Formula::False)
}

/// Whether there are two formulas, and they are these.
#[cycle(formulas)]
fn same_formulas(f: &Formula, g: &Formula, others: Option<(&Formula, &Formula)>) -> bool
    ensures { result ≡ same_formulas f.now g.now (option_map (λ p. (p.0.now, p.1.now)) others.entry) }
{
    match others {
        Some((h, i)) => same_formula(f, h) && same_formula(g, i),
        None => false,
    }
}

/// Whether two formulas are the same tree.
#[cycle(formulas)]
pub(crate) fn same_formula(f: &Formula, g: &Formula) -> bool
    ensures { result ≡ same_formula f.now g.now }
{
    match f {
        Formula::True => is_true(g),
        Formula::False => is_false(g),
        Formula::Eq(a, b) => same_parts(a, b, eq_of(g)),
        Formula::Le(a, b) => same_parts(a, b, le_of(g)),
        Formula::Lt(a, b) => same_parts(a, b, lt_of(g)),
        Formula::Not(h) => match not_of(g) {
            Some(i) => same_formula(h.get(), i),
            None => false,
        },
        Formula::And(h, i) => same_formulas(h.get(), i.get(), and_of(g)),
        Formula::Or(h, i) => same_formulas(h.get(), i.get(), or_of(g)),
        Formula::Imp(h, i) => same_formulas(h.get(), i.get(), imp_of(g)),
    }
}
