ghost use Rattle.std.specs.Prelude.{◌≡◌, IfOk};

use crate::boxed::Boxed;
use crate::term::{Formula, Term};
use std::alloc::Global;
use wasm_values::{Duplicate, OutOfMemory};

impl Term {
    #[cycle(copied_term)]
    fn boxed_term(&self, alloc: Global) -> Result<Boxed<Term>, OutOfMemory>
        ensures { IfOk result (λ b. b ≡ self.now) }
    {
        let t = self.copy(alloc)?;
        Boxed::new(alloc, t)
    }

    #[cycle(copied_term)]
    fn boxed_terms(
        alloc: Global,
        a: &Term,
        b: &Term,
    ) -> Result<(Boxed<Term>, Boxed<Term>), OutOfMemory>
        ensures { IfOk result (λ p. (p.0 ≡ a.now) × (p.1 ≡ b.now)) }
    {
        let a = a.boxed_term(alloc)?;
        let b = b.boxed_term(alloc)?;
        Ok((a, b))
    }

    /// A term that equals this one.
    #[cycle(copied_term)]
    pub fn copy(&self, alloc: Global) -> Result<Term, OutOfMemory>
        ensures { IfOk result (λ t. t ≡ self.now) }
    {
        match self {
            Term::Num(n) => Ok(Term::Num(*n)),
            Term::Var(k) => Ok(Term::Var(*k)),
            Term::Own(k) => Ok(Term::Own(*k)),
            Term::At(place) => Ok(Term::At(*place)),
            Term::Add(a, b) => {
                let (a, b) = Term::boxed_terms(alloc, a.get(), b.get())?;
                Ok(Term::Add(a, b))
            }
            Term::Sub(a, b) => {
                let (a, b) = Term::boxed_terms(alloc, a.get(), b.get())?;
                Ok(Term::Sub(a, b))
            }
            Term::Mul(a, b) => {
                let (a, b) = Term::boxed_terms(alloc, a.get(), b.get())?;
                Ok(Term::Mul(a, b))
            }
            Term::One(op, a) => Ok(Term::One(*op, a.get().boxed_term(alloc)?)),
            Term::Two(op, a, b) => {
                let (a, b) = Term::boxed_terms(alloc, a.get(), b.get())?;
                Ok(Term::Two(*op, a, b))
            }
            Term::Low(k, a) => Ok(Term::Low(*k, a.get().boxed_term(alloc)?)),
            Term::Sext(k, n, a) => Ok(Term::Sext(*k, *n, a.get().boxed_term(alloc)?)),
            Term::Sgn(n, a) => Ok(Term::Sgn(*n, a.get().boxed_term(alloc)?)),
        }
    }
}

impl Duplicate for Term {
    fn duplicate(&self, alloc: Global) -> Result<Term, OutOfMemory> {
        self.copy(alloc)
    }
}

impl Formula {
    fn copied_terms(alloc: Global, a: &Term, b: &Term) -> Result<(Term, Term), OutOfMemory>
        ensures { IfOk result (λ p. (p.0 ≡ a.now) × (p.1 ≡ b.now)) }
    {
        let a = a.copy(alloc)?;
        let b = b.copy(alloc)?;
        Ok((a, b))
    }

    #[cycle(copied_formula)]
    fn boxed_formula(&self, alloc: Global) -> Result<Boxed<Formula>, OutOfMemory>
        ensures { IfOk result (λ b. b ≡ self.now) }
    {
        let f = self.copy(alloc)?;
        Boxed::new(alloc, f)
    }

    #[cycle(copied_formula)]
    fn boxed_formulas(
        alloc: Global,
        f: &Formula,
        g: &Formula,
    ) -> Result<(Boxed<Formula>, Boxed<Formula>), OutOfMemory>
        ensures { IfOk result (λ p. (p.0 ≡ f.now) × (p.1 ≡ g.now)) }
    {
        let f = f.boxed_formula(alloc)?;
        let g = g.boxed_formula(alloc)?;
        Ok((f, g))
    }

    /// A formula that equals this one.
    #[cycle(copied_formula)]
    pub fn copy(&self, alloc: Global) -> Result<Formula, OutOfMemory>
        ensures { IfOk result (λ f. f ≡ self.now) }
    {
        match self {
            Formula::True => Ok(Formula::True),
            Formula::False => Ok(Formula::False),
            Formula::Eq(a, b) => {
                let (a, b) = Formula::copied_terms(alloc, a, b)?;
                Ok(Formula::Eq(a, b))
            }
            Formula::Le(a, b) => {
                let (a, b) = Formula::copied_terms(alloc, a, b)?;
                Ok(Formula::Le(a, b))
            }
            Formula::Lt(a, b) => {
                let (a, b) = Formula::copied_terms(alloc, a, b)?;
                Ok(Formula::Lt(a, b))
            }
            Formula::Not(f) => Ok(Formula::Not(f.get().boxed_formula(alloc)?)),
            Formula::And(f, g) => {
                let (f, g) = Formula::boxed_formulas(alloc, f.get(), g.get())?;
                Ok(Formula::And(f, g))
            }
            Formula::Or(f, g) => {
                let (f, g) = Formula::boxed_formulas(alloc, f.get(), g.get())?;
                Ok(Formula::Or(f, g))
            }
            Formula::Imp(f, g) => {
                let (f, g) = Formula::boxed_formulas(alloc, f.get(), g.get())?;
                Ok(Formula::Imp(f, g))
            }
        }
    }
}

impl Duplicate for Formula {
    fn duplicate(&self, alloc: Global) -> Result<Formula, OutOfMemory> {
        self.copy(alloc)
    }
}
