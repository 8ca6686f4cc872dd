ghost use Rattle.std.specs.Prelude.{◌≡◌, ◌^◌, ◌<◌, ◌+ℤ◌, ◌-ℤ◌, ◌*ℤ◌, ◌&&◌, unsigned_abs, option_and_then, IfSome, IsTrue};
ghost use Rattle.term_trees.specs.Terms.{well_formed};
ghost use Rattle.term_trees.specs.Formulas.{well_formed_formula};
ghost use Rattle.term_trees.specs.Ground.{bounded, both, ground_truth};
ghost use Rattle.term_trees.specs.Rows.{at_numbers};
ghost use Rattle.term_trees.specs.words.Cells.{number_for, value_at, truth_at};

use crate::reduce::{low_value, one_value, sext_value, sgn_value, two_value};
use crate::term::{Formula, Place, Term};

/// The greatest absolute value that a subterm may have, and one.
const END: i128 = 1 << 120;

/// The number, where its absolute value is below the limit.
fn bounded(value: i128) -> Option<i128>
    ensures value { result ≡ bounded value }
    ensures small { IfSome result (λ v. unsigned_abs v < 2 ^ 120) }
{
    if -END < value && value < END {
        Some(value)
    } else {
        None
    }
}

fn bounded_sum(pair: Option<(i128, i128)>) -> Option<i128>
    requires { IfSome pair (λ p. (unsigned_abs p.0 < 2 ^ 120) × (unsigned_abs p.1 < 2 ^ 120)) }
    ensures value { result ≡ option_and_then (λ p. bounded (p.0 +ℤ p.1)) pair }
    ensures small { IfSome result (λ v. unsigned_abs v < 2 ^ 120) }
{
    let (a, b) = pair?;
    bounded(a + b)
}

fn bounded_difference(pair: Option<(i128, i128)>) -> Option<i128>
    requires { IfSome pair (λ p. (unsigned_abs p.0 < 2 ^ 120) × (unsigned_abs p.1 < 2 ^ 120)) }
    ensures value { result ≡ option_and_then (λ p. bounded (p.0 -ℤ p.1)) pair }
    ensures small { IfSome result (λ v. unsigned_abs v < 2 ^ 120) }
{
    let (a, b) = pair?;
    bounded(a - b)
}

fn bounded_product(pair: Option<(i128, i128)>) -> Option<i128>
    ensures value { result ≡ option_and_then (λ p. bounded (p.0 *ℤ p.1)) pair }
    ensures small { IfSome result (λ v. unsigned_abs v < 2 ^ 120) }
{
    let (a, b) = pair?;
    let product = a.checked_mul(b)?;
    bounded(product)
}

/// The numbers that stand for `(index)` and `(item)`, where there are any.
#[derive(Drop)]
struct CellNumbers {
    index: Option<i128>,
    item: Option<i128>,
}

impl CellNumbers {
    fn number_for(&self, place: Place) -> Option<i128>
        ensures { result ≡ number_for self.now place }
    {
        match place {
            Place::Index => self.index,
            Place::Item => self.item,
            _ => None,
        }
    }
}

#[cycle(ground)]
fn two_values(a: &Term, b: &Term, cell: &CellNumbers) -> Option<(i128, i128)>
    requires { IsTrue (well_formed a.now && well_formed b.now) }
    ensures value { result ≡ both (value_at cell.now a.now) (value_at cell.now b.now) }
    ensures small { IfSome result (λ p. (unsigned_abs p.0 < 2 ^ 120) × (unsigned_abs p.1 < 2 ^ 120)) }
{
    let a = ground_value(a, cell)?;
    let b = ground_value(b, cell)?;
    Some((a, b))
}

/// The value of a term without variables and other places, where all its subterms are small.
#[cycle(ground)]
#[tactic(auto, using(crate::proofs::CellTruths::cell_values))]
fn ground_value(t: &Term, cell: &CellNumbers) -> Option<i128>
    requires { IsTrue (well_formed t.now) }
    ensures value { result ≡ value_at cell.now t.now }
    ensures small { IfSome result (λ v. unsigned_abs v < 2 ^ 120) }
{
    match t {
        Term::Num(n) => bounded(*n),
        Term::Var(_) | Term::Own(_) => None,
        Term::At(place) => match cell.number_for(*place) {
            Some(n) => bounded(n),
            None => None,
        },
        Term::Add(a, b) => bounded_sum(two_values(a.get(), b.get(), cell)),
        Term::Sub(a, b) => bounded_difference(two_values(a.get(), b.get(), cell)),
        Term::Mul(a, b) => bounded_product(two_values(a.get(), b.get(), cell)),
        Term::One(op, a) => match ground_value(a.get(), cell) {
            Some(a) => bounded(one_value(*op, a)),
            None => None,
        },
        Term::Two(op, a, b) => match two_values(a.get(), b.get(), cell) {
            Some((a, b)) => bounded(two_value(*op, a, b)),
            None => None,
        },
        Term::Low(k, a) => match ground_value(a.get(), cell) {
            Some(a) => bounded(low_value(*k, a)),
            None => None,
        },
        Term::Sext(k, n, a) => match ground_value(a.get(), cell) {
            Some(a) => bounded(sext_value(*k, *n, a)),
            None => None,
        },
        Term::Sgn(n, a) => match ground_value(a.get(), cell) {
            Some(a) => bounded(sgn_value(*n, a)),
            None => None,
        },
    }
}

#[cycle(truth)]
fn two_truths(f: &Formula, g: &Formula, cell: &CellNumbers) -> Option<(bool, bool)>
    requires { IsTrue (well_formed_formula f.now && well_formed_formula g.now) }
    ensures { result ≡ both (truth_at cell.now f.now) (truth_at cell.now g.now) }
{
    let f = ground_truth(f, cell)?;
    let g = ground_truth(g, cell)?;
    Some((f, g))
}

/// The truth of a formula without variables and other places, where all subterms are small.
#[cycle(truth)]
#[tactic(auto, using(crate::proofs::CellTruths::cell_truths))]
fn ground_truth(f: &Formula, cell: &CellNumbers) -> Option<bool>
    requires { IsTrue (well_formed_formula f.now) }
    ensures { result ≡ truth_at cell.now f.now }
{
    match f {
        Formula::True => Some(true),
        Formula::False => Some(false),
        Formula::Eq(a, b) => {
            let (a, b) = two_values(a, b, cell)?;
            Some(a == b)
        }
        Formula::Le(a, b) => {
            let (a, b) = two_values(a, b, cell)?;
            Some(a <= b)
        }
        Formula::Lt(a, b) => {
            let (a, b) = two_values(a, b, cell)?;
            Some(a < b)
        }
        Formula::Not(f) => {
            let holds = ground_truth(f.get(), cell)?;
            Some(!holds)
        }
        Formula::And(f, g) => {
            let (f, g) = two_truths(f.get(), g.get(), cell)?;
            Some(f && g)
        }
        Formula::Or(f, g) => {
            let (f, g) = two_truths(f.get(), g.get(), cell)?;
            Some(f || g)
        }
        Formula::Imp(f, g) => {
            let (f, g) = two_truths(f.get(), g.get(), cell)?;
            Some(!f || g)
        }
    }
}

/// The truth of a formula without variables and places, where all subterms are small.
pub fn ground(f: &Formula) -> Option<bool>
    requires { IsTrue (well_formed_formula f.now) }
    ensures { result ≡ ground_truth f.now }
{
    let none = CellNumbers {
        index: None,
        item: None,
    };
    ground_truth(f, &none)
}

/// The same of a formula that may have `(index)` and `(item)`, which stand for the two numbers.
pub fn ground_at(f: &Formula, index: i128, item: i128) -> Option<bool>
    requires { IsTrue (well_formed_formula f.now) }
    ensures { result ≡ ground_truth (at_numbers f.now index item) }
{
    let cell = CellNumbers {
        index: Some(index),
        item: Some(item),
    };
    ground_truth(f, &cell)
}
