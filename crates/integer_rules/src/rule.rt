/// A rule of machine integers.
#[derive(Clone, Copy, Debug)]
pub enum IntegerRule {
    Range,
    Add,
    Addwrap,
    Sub,
    Subwrap,
    Mul,
    Divu,
    Divs,
    Test,
    Tests,
    Sgn,
    Shift,
    Mask,
    Widen,
}
