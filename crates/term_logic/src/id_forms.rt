ghost use Rattle.std.specs.Prelude.{◌≡◌, ◌<◌, [], length, IfOk, IfSome};
ghost use Rattle.std.specs.Option.{option_map};
ghost use Rattle.term_logic.specs.Table.{tree_at};
ghost use Rattle.term_trees.specs.Ground.{both};
ghost use Rattle.term_trees.specs.Linear.{shown, shown_form, coefficient_in, limited, joined, linear_parts};
ghost use Rattle.term_logic.specs.Linear.{FormWithin};

use crate::table::{TermCell, TermId, TermTable};
use std::alloc::Global;
use term_trees::linear::{atom, coefficient_in, joined, number, product};
use term_trees::{Atoms, Linear, Way};
use wasm_values::OutOfMemory;

/// A position of a table stands for its tree.
impl Atoms<TermId> for TermTable {
    ghost tree = { tree_at };

    ghost Within = { λ ts id. id < length ts };

    fn same(&self, a: TermId, b: TermId) -> bool {
        self.same_tree(a, b)
    }
}

/// Linear forms whose terms are positions of the table.
impl TermTable {
    #[cycle(id_forms)]
    fn two_forms(
        &self,
        alloc: Global,
        a: TermId,
        b: TermId,
    ) -> Result<Option<(Linear<TermId>, Linear<TermId>)>, OutOfMemory>
        requires first { a < length self.now }
        requires second { b < length self.now }
        ensures forms { IfOk result (λ o. option_map (λ p. (shown_form (tree_at self.now) p.0, shown_form (tree_at self.now) p.1)) o ≡ both (linear_parts (tree_at self.now a)) (linear_parts (tree_at self.now b))) }
        ensures within { IfOk result (λ o. IfSome o (λ p. FormWithin (length self.now) p.0 × FormWithin (length self.now) p.1)) }
    {
        let Some(first) = self.form_of(alloc, a)? else {
            return Ok(None);
        };
        let Some(second) = self.form_of(alloc, b)? else {
            return Ok(None);
        };
        Ok(Some((first, second)))
    }

    /// The linear form of the term at a position. `None` comes exactly where a number on the way is too great.
    #[cycle(id_forms)]
    #[tactic(auto, using(crate::proofs::LinearCells::cell_forms))]
    pub fn form_of(&self, alloc: Global, id: TermId) -> Result<Option<Linear<TermId>>, OutOfMemory>
        requires { id < length self.now }
        ensures form { IfOk result (λ o. option_map (shown_form (tree_at self.now)) o ≡ linear_parts (tree_at self.now id)) }
        ensures within { IfOk result (λ o. IfSome o (λ l. FormWithin (length self.now) l)) }
    {
        match self.cell(id) {
            TermCell::Num(n) => Ok(number(alloc, self, *n)),
            TermCell::Add(a, b) => match self.two_forms(alloc, *a, *b)? {
                Some((first, second)) => joined(alloc, self, Way::Sum, &first, &second),
                None => Ok(None),
            },
            TermCell::Sub(a, b) => match self.two_forms(alloc, *a, *b)? {
                Some((first, second)) => joined(alloc, self, Way::Difference, &first, &second),
                None => Ok(None),
            },
            TermCell::Mul(a, b) => match self.two_forms(alloc, *a, *b)? {
                Some((first, second)) => product(alloc, self, id, &first, &second),
                None => Ok(None),
            },
            TermCell::Var(_) | TermCell::Own(_) | TermCell::At(_) => atom(alloc, self, id),
            TermCell::One(_, _) | TermCell::Two(_, _, _) => atom(alloc, self, id),
            TermCell::Low(_, _) | TermCell::Sext(_, _, _) | TermCell::Sgn(_, _) => atom(
                alloc, self, id,
            ),
        }
    }

    /// The form of a number. `None` comes exactly where it is too great.
    pub fn number_form(&self, alloc: Global, n: i128) -> Option<Linear<TermId>>
        ensures form { option_map (shown_form (tree_at self.now)) result ≡ option_map (λ c. (c, [])) (limited n) }
        ensures within { IfSome result (λ l. FormWithin (length self.now) l) }
    {
        number(alloc, self, n)
    }

    /// Two forms taken together. `None` comes exactly where the constant or a coefficient is too great.
    pub fn joined_forms(
        &self,
        alloc: Global,
        way: Way,
        first: &Linear<TermId>,
        second: &Linear<TermId>,
    ) -> Result<Option<Linear<TermId>>, OutOfMemory>
        requires first { FormWithin (length self.now) first.now }
        requires second { FormWithin (length self.now) second.now }
        ensures form { IfOk result (λ o. option_map (shown_form (tree_at self.now)) o ≡ joined way (shown_form (tree_at self.now) first.now) (shown_form (tree_at self.now) second.now)) }
        ensures within { IfOk result (λ o. IfSome o (λ l. FormWithin (length self.now) l)) }
    {
        joined(alloc, self, way, first, second)
    }

    /// The coefficient of a term in a form: 0 where the form has no part of it.
    pub fn coefficient_of(&self, form: &Linear<TermId>, id: TermId) -> i128
        requires form { FormWithin (length self.now) form.now }
        requires term { id < length self.now }
        ensures { result ≡ coefficient_in (shown (tree_at self.now) form.now.parts.items) (tree_at self.now id) }
    {
        coefficient_in(self, &form.parts, id)
    }
}
