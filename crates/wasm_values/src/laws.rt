ghost use Rattle.std.specs.Prelude.{◌≡◌, ℕ, ◌%◌, ◌^◌, ◌<◌, ◌↔◌, List, length, IsNone, IfSome, slice_index};
ghost use Rattle.wasm_values.specs.declared.number.IntOp.{IntOp};
ghost use Rattle.wasm_values.specs.declared.number.NumOp.{NumOp};
ghost use Rattle.wasm_values.specs.Operators.{IsWidth, IsUndefined, operands, binary, num_width, num_unary, num_binary, width_of, result_type, number_of_bytes, bytes_of_number};

/// An operator of two operands gives nothing exactly where it is undefined.
pub fn undefined_operators()
    ensures { (n : ℕ) (op : IntOp) (a b : ℕ) → IsWidth n → a < 2 ^ n → b < 2 ^ n → operands op ≡ 2
        → IsNone (binary n op a b) ↔ IsUndefined n op a b }
{}

/// What numeric instructions give lies in the range of its type.
pub fn numbers_in_range()
    ensures one { (op : NumOp) (a : ℕ) → a < 2 ^ num_width op → num_unary op a < 2 ^ width_of (result_type op) }
    ensures two { (op : NumOp) (a b : ℕ) → a < 2 ^ num_width op → b < 2 ^ num_width op
        → IfSome (num_binary op a b) (λ given. given < 2 ^ width_of (result_type op)) }
{}

/// Bytes and the numbers that they stand for undo one another.
pub fn bytes_and_numbers()
    ensures number { (k a : ℕ) → number_of_bytes (bytes_of_number k a) ≡ a % 256 ^ k }
    ensures bytes { (bytes : List ℕ) → ((i : ℕ) → slice_index bytes i < 256)
        → bytes_of_number (length bytes) (number_of_bytes bytes) ≡ bytes }
{}
