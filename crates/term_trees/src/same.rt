ghost use Rattle.std.specs.Prelude.{◌≡◌, ◌==◌};
ghost use Rattle.std.specs.Option.{option_map};
ghost use Rattle.term_trees.specs.Same.{passes, same, same_counted, same_parts};

use crate::term::Term;

fn same_count(k: u32, other: Option<u32>) -> bool
    ensures { result ≡ passes other (λ j. k == j) }
{
    match other {
        Some(j) => k == j,
        None => false,
    }
}

/// Whether there are two terms, and they are these.
#[cycle(trees)]
pub fn same_parts(a: &Term, b: &Term, others: Option<(&Term, &Term)>) -> bool
    ensures { result ≡ same_parts a.now b.now (option_map (λ p. (p.0.now, p.1.now)) others.entry) }
{
    match others {
        Some((c, d)) => same_term(a, c) && same_term(b, d),
        None => false,
    }
}

#[cycle(trees)]
fn same_counted(k: u32, a: &Term, other: Option<(u32, &Term)>) -> bool
    ensures { result ≡ same_counted k a.now (option_map (λ p. (p.0, p.1.now)) other.entry) }
{
    match other {
        Some((j, c)) => k == j && same_term(a, c),
        None => false,
    }
}

/// Whether two terms are the same tree.
#[cycle(trees)]
pub fn same_term(t: &Term, u: &Term) -> bool
    ensures { result ≡ same t.now u.now }
{
    match t {
        Term::Num(n) => match u.num_of() {
            Some(m) => *n == m,
            None => false,
        },
        Term::Var(k) => same_count(*k, u.var_of()),
        Term::Own(k) => same_count(*k, u.own_of()),
        Term::At(place) => match u.place_of() {
            Some(p) => *place == p,
            None => false,
        },
        Term::Add(a, b) => same_parts(a.get(), b.get(), u.sum_of()),
        Term::Sub(a, b) => same_parts(a.get(), b.get(), u.difference_of()),
        Term::Mul(a, b) => same_parts(a.get(), b.get(), u.product_of()),
        Term::One(op, a) => match u.one_of() {
            Some((other, c)) => *op == other && same_term(a.get(), c),
            None => false,
        },
        Term::Two(op, a, b) => match u.two_of() {
            Some((other, c, d)) => *op == other && same_term(a.get(), c) && same_term(b.get(), d),
            None => false,
        },
        Term::Low(k, a) => same_counted(*k, a.get(), u.low_of()),
        Term::Sext(k, n, a) => match u.sext_of() {
            Some((j, m, c)) => *k == j && *n == m && same_term(a.get(), c),
            None => false,
        },
        Term::Sgn(n, a) => same_counted(*n, a.get(), u.sgn_of()),
    }
}
