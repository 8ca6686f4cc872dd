// The names of numeric operators.

ghost use Rattle.std.specs.Prelude.{◌≡◌, ◌++◌};
ghost use Rattle.wasm_values.specs.Names.{int_name, num_name};

use crate::number::{IntOp, NumOp};

impl IntOp {
    /// Its name in the text format, behind its width (section 6.5.6).
    pub fn name(self) -> &'static str
        ensures { result.now ≡ int_name self }
    {
        match self {
            IntOp::Eqz => "eqz",
            IntOp::Eq => "eq",
            IntOp::Ne => "ne",
            IntOp::LtS => "lt_s",
            IntOp::LtU => "lt_u",
            IntOp::GtS => "gt_s",
            IntOp::GtU => "gt_u",
            IntOp::LeS => "le_s",
            IntOp::LeU => "le_u",
            IntOp::GeS => "ge_s",
            IntOp::GeU => "ge_u",
            IntOp::Clz => "clz",
            IntOp::Ctz => "ctz",
            IntOp::Popcnt => "popcnt",
            IntOp::Add => "add",
            IntOp::Sub => "sub",
            IntOp::Mul => "mul",
            IntOp::DivS => "div_s",
            IntOp::DivU => "div_u",
            IntOp::RemS => "rem_s",
            IntOp::RemU => "rem_u",
            IntOp::And => "and",
            IntOp::Or => "or",
            IntOp::Xor => "xor",
            IntOp::Shl => "shl",
            IntOp::ShrS => "shr_s",
            IntOp::ShrU => "shr_u",
            IntOp::Rotl => "rotl",
            IntOp::Rotr => "rotr",
        }
    }
}

impl NumOp {
    /// Its name in the text format, in two pieces: that of its width, with the point, and what follows (section 6.5.6).
    pub fn name(self) -> (&'static str, &'static str)
        ensures { result.0.now ++ result.1.now ≡ num_name self }
    {
        match self {
            NumOp::W32(op) => ("i32.", op.name()),
            NumOp::W64(op) => ("i64.", op.name()),
            NumOp::Wrap => ("i32.", "wrap_i64"),
            NumOp::ExtendS => ("i64.", "extend_i32_s"),
            NumOp::ExtendU => ("i64.", "extend_i32_u"),
        }
    }
}
