// The words that operators and rules are printed as.

ghost use Rattle.std.specs.Prelude.{◌≡◌, ◌++◌, ◌∷◌, OnOk};
ghost use Rattle.notes_grammar.specs.Words.{num_name, rule_name};

use crate::bytes::push_word;
use bitvector_rules::Rule;
use wasm_values::{Bytes, NumOp, OutOfMemory};

/// The name of a rule.
pub(crate) fn rule_name(rule: Rule) -> &'static str
    ensures { result.now ≡ rule_name rule }
{
    match rule {
        Rule::Hyp => "hyp",
        Rule::True => "true",
        Rule::And => "and",
        Rule::Left => "left",
        Rule::Right => "right",
        Rule::Orl => "orl",
        Rule::Orr => "orr",
        Rule::Cases => "cases",
        Rule::Assume => "assume",
        Rule::Apply => "apply",
        Rule::Contra => "contra",
        Rule::Refute => "refute",
        Rule::Clash => "clash",
        Rule::Explode => "explode",
        Rule::Refl => "refl",
        Rule::Rewrite => "rewrite",
        Rule::Eval => "eval",
        Rule::Linear => "linear",
        Rule::Floor => "floor",
        Rule::Ceil => "ceil",
        Rule::Order => "order",
        Rule::Notle => "notle",
        Rule::Notlt => "notlt",
        Rule::Mulpos => "mulpos",
        Rule::Range => "range",
        Rule::Add => "add",
        Rule::Addwrap => "addwrap",
        Rule::Sub => "sub",
        Rule::Subwrap => "subwrap",
        Rule::Mul => "mul",
        Rule::Divu => "divu",
        Rule::Divs => "divs",
        Rule::Test => "test",
        Rule::Tests => "tests",
        Rule::Sgn => "sgn",
        Rule::Shift => "shift",
        Rule::Mask => "mask",
        Rule::Widen => "widen",
    }
}

/// Adds the name of an operator.
fn push_op(out: &mut Bytes, op: NumOp) -> Result<(), OutOfMemory>
    ensures { OnOk result (out.new ≡ out.old ++ num_name op) }
{
    let (width, name) = op.name();
    push_word(out, width)?;
    push_word(out, name)
}

/// Adds a parenthesis and the name of an operator.
pub(crate) fn open_op(out: &mut Bytes, op: NumOp) -> Result<(), OutOfMemory>
    ensures { OnOk result (out.new ≡ out.old ++ 40 ∷ num_name op) }
{
    out.push(b'(')?;
    push_op(out, op)
}
