//! Operands, the topmost last.

ghost use Rattle.std.specs.Prelude.{◌≡◌, ℕ, ◌+◌, ◌-◌, ◌≤◌, ◌==◌, if◌then◌else◌, true, false, List, ◌∷◌, ◌++◌, length, take, drop, reverse, OnOk, OnErr, MatchBool, MatchOption};
ghost use Rattle.wasm_values.specs.Operators.{num_operands, num_unary, num_binary, value_of, operand_type, result_type};

use wasm_values::{List, NumOp, OutOfMemory, Val, num1, num2};

/// Puts a value on top.
pub fn push(operands: &mut List<Val>, value: Val) -> Result<(), OutOfMemory>
    ensures ok { OnOk result (reverse operands.new ≡ value ∷ reverse operands.old) }
    ensures err { OnErr result (operands.new ≡ operands.old) }
{
    operands.push(value)
}

/// Takes the topmost value off.
pub fn pop(operands: &mut List<Val>) -> Val
    requires { (v : Val) × (rest : List Val) × (reverse operands.old ≡ v ∷ rest) }
    ensures { reverse operands.old ≡ result ∷ reverse operands.new }
{
    operands.pop().unwrap()
}

/// The value on top.
pub fn top(operands: &[Val]) -> Val
    requires { (v : Val) × (rest : List Val) × (reverse operands.now ≡ v ∷ rest) }
    ensures { (rest : List Val) × (reverse operands.now ≡ result ∷ rest) }
{
    operands[operands.len() - 1]
}

/// Takes a number of 32 bits off.
pub fn pop_number(operands: &mut List<Val>) -> u32
    requires { (c : ℕ) × (rest : List Val) × (reverse operands.old ≡ Val.I32 c ∷ rest) }
    ensures { reverse operands.old ≡ Val.I32 result ∷ reverse operands.new }
{
    match pop(operands) {
        Val::I32(c) => c,
        Val::I64(_) => unreachable!(),
    }
}

/// The number of 32 bits on top.
pub fn top_number(operands: &[Val]) -> u32
    requires { (c : ℕ) × (rest : List Val) × (reverse operands.now ≡ Val.I32 c ∷ rest) }
    ensures { (rest : List Val) × (reverse operands.now ≡ Val.I32 result ∷ rest) }
{
    match top(operands) {
        Val::I32(c) => c,
        Val::I64(_) => unreachable!(),
    }
}

/// Puts a value in the place of the topmost one.
pub fn set_top(operands: &mut List<Val>, value: Val)
    requires { (w : Val) × (rest : List Val) × (reverse operands.old ≡ w ∷ rest) }
    ensures { (w : Val) (rest : List Val) → reverse operands.old ≡ w ∷ rest → reverse operands.new ≡ value ∷ rest }
{
    let last = operands.len() - 1;
    operands.set(last, value);
}

/// Takes so many values off.
pub fn drop_top(operands: &mut List<Val>, count: usize)
    requires { count ≤ length operands.old }
    ensures { reverse operands.new ≡ drop count (reverse operands.old) }
{
    let rest = operands.len() - count;
    operands.truncate(rest);
}

/// Keeps the topmost `arity` values over the lowest `height`.
pub fn keep(operands: &mut List<Val>, arity: usize, height: usize)
    requires { arity + height ≤ length operands.old }
    ensures { reverse operands.new ≡ take arity (reverse operands.old) ++ drop (length (reverse operands.old) - height) (reverse operands.old) }
{
    let start = operands.len() - arity;
    for k in 0..arity {
        let value = operands.as_slice()[start + k];
        operands.set(height + k, value);
    }
    operands.truncate(height + arity);
}

/// Of three values on top, the topmost of which is a number of 32 bits, keeps the second where that number is 0, and else
/// the third.
pub fn select(operands: &mut List<Val>)
    requires { (c : ℕ) × (first second : Val) × (rest : List Val) × (reverse operands.old ≡ Val.I32 c ∷ second ∷ first ∷ rest) }
    ensures { (c : ℕ) × (first second : Val) × (rest : List Val) × (reverse operands.old ≡ Val.I32 c ∷ second ∷ first ∷ rest) × (reverse operands.new ≡ (if c == 0 then second else first) ∷ rest) }
{
    let condition = pop_number(operands);
    let second = pop(operands);
    if condition == 0 {
        set_top(operands, second);
    }
}

/// A numeric instruction of one operand.
pub fn compute_one(operands: &mut List<Val>, op: NumOp)
    requires arity { num_operands op ≡ 1 }
    requires there { (a : ℕ) × (rest : List Val) × (reverse operands.old ≡ value_of (operand_type op) a ∷ rest) }
    ensures { (a : ℕ) × (rest : List Val) × (reverse operands.old ≡ value_of (operand_type op) a ∷ rest) × (reverse operands.new ≡ value_of (result_type op) (num_unary op a) ∷ rest) }
{
    let a = top(operands.as_slice());
    set_top(operands, num1(op, a));
}

/// A numeric instruction of two operands. It answers whether it is defined.
pub fn compute_two(operands: &mut List<Val>, op: NumOp) -> bool
    requires arity { num_operands op ≡ 2 }
    requires there { (a b : ℕ) × (rest : List Val) × (reverse operands.old ≡ value_of (operand_type op) b ∷ value_of (operand_type op) a ∷ rest) }
    ensures { (a b : ℕ) × (rest : List Val) × (reverse operands.old ≡ value_of (operand_type op) b ∷ value_of (operand_type op) a ∷ rest)
        × MatchOption (num_binary op a b) (result ≡ false) (λ v. (result ≡ true) × (reverse operands.new ≡ value_of (result_type op) v ∷ rest)) }
{
    let b = pop(operands);
    let a = top(operands.as_slice());
    match num2(op, a, b) {
        Some(value) => {
            set_top(operands, value);
            true
        }
        None => false,
    }
}
