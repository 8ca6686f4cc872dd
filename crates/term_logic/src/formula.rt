ghost use Rattle.std.specs.Prelude.{◌≡◌, IfOk};

use crate::table::TermId;
use std::alloc::Global;
use term_trees::Boxed;
use wasm_values::OutOfMemory;

/// A claim on terms of a table.
#[derive(Debug, Drop)]
pub enum IdFormula {
    True,
    False,
    Eq(TermId, TermId),
    Le(TermId, TermId),
    Lt(TermId, TermId),
    Not(Boxed<IdFormula>),
    And(Boxed<IdFormula>, Boxed<IdFormula>),
    Or(Boxed<IdFormula>, Boxed<IdFormula>),
    Imp(Boxed<IdFormula>, Boxed<IdFormula>),
}

impl IdFormula {
    #[cycle(copied)]
    fn boxed_copy(&self, alloc: Global) -> Result<Boxed<IdFormula>, OutOfMemory>
        ensures { IfOk result (λ b. b ≡ self.now) }
    {
        let f = self.copy(alloc)?;
        Boxed::new(alloc, f)
    }

    #[cycle(copied)]
    fn boxed_copies(
        alloc: Global,
        f: &IdFormula,
        g: &IdFormula,
    ) -> Result<(Boxed<IdFormula>, Boxed<IdFormula>), OutOfMemory>
        ensures { IfOk result (λ p. (p.0 ≡ f.now) × (p.1 ≡ g.now)) }
    {
        let f = f.boxed_copy(alloc)?;
        let g = g.boxed_copy(alloc)?;
        Ok((f, g))
    }

    /// A formula that equals this one.
    #[cycle(copied)]
    pub fn copy(&self, alloc: Global) -> Result<IdFormula, OutOfMemory>
        ensures { IfOk result (λ f. f ≡ self.now) }
    {
        match self {
            IdFormula::True => Ok(IdFormula::True),
            IdFormula::False => Ok(IdFormula::False),
            IdFormula::Eq(a, b) => Ok(IdFormula::Eq(*a, *b)),
            IdFormula::Le(a, b) => Ok(IdFormula::Le(*a, *b)),
            IdFormula::Lt(a, b) => Ok(IdFormula::Lt(*a, *b)),
            IdFormula::Not(f) => Ok(IdFormula::Not(f.get().boxed_copy(alloc)?)),
            IdFormula::And(f, g) => {
                let (f, g) = IdFormula::boxed_copies(alloc, f.get(), g.get())?;
                Ok(IdFormula::And(f, g))
            }
            IdFormula::Or(f, g) => {
                let (f, g) = IdFormula::boxed_copies(alloc, f.get(), g.get())?;
                Ok(IdFormula::Or(f, g))
            }
            IdFormula::Imp(f, g) => {
                let (f, g) = IdFormula::boxed_copies(alloc, f.get(), g.get())?;
                Ok(IdFormula::Imp(f, g))
            }
        }
    }
}
