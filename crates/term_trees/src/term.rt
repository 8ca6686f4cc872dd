use crate::boxed::Boxed;
use wasm_values::NumOp;

/// A part of a state that a term may speak of.
#[derive(Clone, Copy, Debug, PartialEq, Eq, Hash)]
pub enum Place {
    Local(u32),
    Stack(u32),
    Global(u32),
    Pages,
    Arg(u32),
    Result,
    Index,
    Item,
}

/// A whole number, as a tree.
#[derive(Debug, Drop)]
pub enum Term {
    Num(i128),
    Var(u32),
    Own(u32),
    At(Place),
    Add(Boxed<Term>, Boxed<Term>),
    Sub(Boxed<Term>, Boxed<Term>),
    Mul(Boxed<Term>, Boxed<Term>),
    One(NumOp, Boxed<Term>),
    Two(NumOp, Boxed<Term>, Boxed<Term>),
    Low(u32, Boxed<Term>),
    Sext(u32, u32, Boxed<Term>),
    Sgn(u32, Boxed<Term>),
}

/// A claim on terms.
#[derive(Debug, Drop)]
pub enum Formula {
    True,
    False,
    Eq(Term, Term),
    Le(Term, Term),
    Lt(Term, Term),
    Not(Boxed<Formula>),
    And(Boxed<Formula>, Boxed<Formula>),
    Or(Boxed<Formula>, Boxed<Formula>),
    Imp(Boxed<Formula>, Boxed<Formula>),
}
