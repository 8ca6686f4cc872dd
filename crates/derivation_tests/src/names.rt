use bitvector_rules::Rule;
use wasm_values::{IntOp, NumOp};

/// How a term is made of terms.
#[derive(Clone, Copy)]
pub(crate) enum Former {
    Sum,
    Difference,
    Product,
    Operator(NumOp),
    Low(u32),
    Sext(u32, u32),
    Sgn(u32),
}

/// How a formula is made of terms, or of formulas.
#[derive(Clone, Copy)]
pub(crate) enum Connective {
    Eq,
    Le,
    Lt,
    Not,
    And,
    Or,
    Imp,
}

/// A test of integers.
fn test_named(name: &str) -> Option<IntOp> {
    match name {
        "eqz" => Some(IntOp::Eqz),
        "eq" => Some(IntOp::Eq),
        "ne" => Some(IntOp::Ne),
        "lt_s" => Some(IntOp::LtS),
        "lt_u" => Some(IntOp::LtU),
        "gt_s" => Some(IntOp::GtS),
        "gt_u" => Some(IntOp::GtU),
        "le_s" => Some(IntOp::LeS),
        "le_u" => Some(IntOp::LeU),
        "ge_s" => Some(IntOp::GeS),
        "ge_u" => Some(IntOp::GeU),
        _ => None,
    }
}

/// An operator on digits.
fn digits_named(name: &str) -> Option<IntOp> {
    match name {
        "clz" => Some(IntOp::Clz),
        "ctz" => Some(IntOp::Ctz),
        "popcnt" => Some(IntOp::Popcnt),
        "and" => Some(IntOp::And),
        "xor" => Some(IntOp::Xor),
        "shl" => Some(IntOp::Shl),
        "shr_s" => Some(IntOp::ShrS),
        "shr_u" => Some(IntOp::ShrU),
        _ => None,
    }
}

/// An operator on numbers.
fn arithmetic_named(name: &str) -> Option<IntOp> {
    match name {
        "add" => Some(IntOp::Add),
        "sub" => Some(IntOp::Sub),
        "mul" => Some(IntOp::Mul),
        "div_s" => Some(IntOp::DivS),
        "div_u" => Some(IntOp::DivU),
        "rem_s" => Some(IntOp::RemS),
        "rem_u" => Some(IntOp::RemU),
        _ => None,
    }
}

/// An operator, by its name behind the width.
fn operator_named(name: &str) -> Option<IntOp> {
    match test_named(name) {
        Some(op) => Some(op),
        None => match digits_named(name) {
            Some(op) => Some(op),
            None => arithmetic_named(name),
        },
    }
}

/// An operator, by its name in the standard.
fn instruction_named(name: &str) -> Option<NumOp> {
    match name {
        "i32.wrap_i64" => Some(NumOp::Wrap),
        "i64.extend_i32_s" => Some(NumOp::ExtendS),
        "i64.extend_i32_u" => Some(NumOp::ExtendU),
        _ => match name.strip_prefix("i32.") {
            Some(rest) => Some(NumOp::W32(operator_named(rest)?)),
            None => Some(NumOp::W64(operator_named(name.strip_prefix("i64.")?)?)),
        },
    }
}

/// How a word makes a term of terms.
pub(crate) fn former_named(word: &str) -> Option<Former> {
    match word {
        "+" => Some(Former::Sum),
        "-" => Some(Former::Difference),
        "*" => Some(Former::Product),
        "low8" => Some(Former::Low(8)),
        "low16" => Some(Former::Low(16)),
        "low32" => Some(Former::Low(32)),
        "sext8_32" => Some(Former::Sext(8, 32)),
        "sext16_32" => Some(Former::Sext(16, 32)),
        "sext8_64" => Some(Former::Sext(8, 64)),
        "sext16_64" => Some(Former::Sext(16, 64)),
        "sext32_64" => Some(Former::Sext(32, 64)),
        "sgn32" => Some(Former::Sgn(32)),
        "sgn64" => Some(Former::Sgn(64)),
        _ => Some(Former::Operator(instruction_named(word)?)),
    }
}

/// How a word makes a formula.
pub(crate) fn connective_named(word: &str) -> Option<Connective> {
    match word {
        "=" => Some(Connective::Eq),
        "<=" => Some(Connective::Le),
        "<" => Some(Connective::Lt),
        "not" => Some(Connective::Not),
        "and" => Some(Connective::And),
        "or" => Some(Connective::Or),
        "imp" => Some(Connective::Imp),
        _ => None,
    }
}

/// A logical rule.
fn logical_named(name: &str) -> Option<Rule> {
    match name {
        "hyp" => Some(Rule::Hyp),
        "true" => Some(Rule::True),
        "and" => Some(Rule::And),
        "left" => Some(Rule::Left),
        "right" => Some(Rule::Right),
        "orl" => Some(Rule::Orl),
        "orr" => Some(Rule::Orr),
        "cases" => Some(Rule::Cases),
        "assume" => Some(Rule::Assume),
        "apply" => Some(Rule::Apply),
        "contra" => Some(Rule::Contra),
        "refute" => Some(Rule::Refute),
        "clash" => Some(Rule::Clash),
        "explode" => Some(Rule::Explode),
        _ => None,
    }
}

/// A rule of equality and order.
fn order_named(name: &str) -> Option<Rule> {
    match name {
        "refl" => Some(Rule::Refl),
        "rewrite" => Some(Rule::Rewrite),
        "eval" => Some(Rule::Eval),
        "linear" => Some(Rule::Linear),
        "floor" => Some(Rule::Floor),
        "ceil" => Some(Rule::Ceil),
        "order" => Some(Rule::Order),
        "notle" => Some(Rule::Notle),
        "notlt" => Some(Rule::Notlt),
        "mulpos" => Some(Rule::Mulpos),
        _ => None,
    }
}

/// A rule of machine integers.
fn machine_named(name: &str) -> Option<Rule> {
    match name {
        "range" => Some(Rule::Range),
        "add" => Some(Rule::Add),
        "addwrap" => Some(Rule::Addwrap),
        "sub" => Some(Rule::Sub),
        "subwrap" => Some(Rule::Subwrap),
        "mul" => Some(Rule::Mul),
        "divu" => Some(Rule::Divu),
        "divs" => Some(Rule::Divs),
        "test" => Some(Rule::Test),
        "tests" => Some(Rule::Tests),
        "sgn" => Some(Rule::Sgn),
        "shift" => Some(Rule::Shift),
        "mask" => Some(Rule::Mask),
        "widen" => Some(Rule::Widen),
        _ => None,
    }
}

/// A rule by its name.
pub(crate) fn rule_named(name: &str) -> Option<Rule> {
    match logical_named(name) {
        Some(rule) => Some(rule),
        None => match order_named(name) {
            Some(rule) => Some(rule),
            None => machine_named(name),
        },
    }
}
