//! Laws over the definitions alone, for the crates above.

ghost use Rattle.std.specs.Prelude.{◌≡◌, ◌↔◌, ℕ, ◌+◌, ◌<◌, length, count_by, List, IsTrue};
ghost use Rattle.std.specs.List.{range_with_len};
ghost use Rattle.wasm_syntax.specs.Opcodes.{code_of, kind_of, means_op, is_op, is_float, is_unused};
ghost use Rattle.wasm_syntax.specs.declared.instr.Instr.{Instr};
ghost use Rattle.wasm_syntax.specs.declared.kind.Opcode.{Opcode};
ghost use Rattle.wasm_syntax.specs.FlatForm.{flat_body};
ghost use Rattle.wasm_syntax.specs.Trees.{Instruction, Sequence, Then, instruction_of, sequence_of, instr_from, instrs_from};
ghost use Rattle.wasm_syntax.specs.Places.{size_of_all, rest_at, InstructionAt, StopsAt};

use crate::kind::Kind;

/// Instructions and their trees are one to one, and so are lists of instructions and their sequences.
pub fn trees_are_one_to_one()
    ensures instruction { (i : Instr) → instr_from (instruction_of i) ≡ i }
    ensures instruction_back { (t : Instruction) → instruction_of (instr_from t) ≡ t }
    ensures sequence { (is : List Instr) → instrs_from (sequence_of is) ≡ is }
    ensures sequence_back { (s : Sequence) → sequence_of (instrs_from s) ≡ s }
{}

/// Where instructions and their parts stand: the number of an instruction, in the order of the file, is the place of
/// its item, and its parts and what comes after it begin as many places further as its items say.
pub fn instructions_stand_at_their_numbers()
    ensures whole { (body : List Instr) → rest_at body 0 ≡ sequence_of body }
    ensures count { (body : List Instr) → length (flat_body body) ≡ size_of_all (sequence_of body) + 1 }
    ensures instruction { (body : List Instr) (p : ℕ) (i : Instruction) (s : Sequence) →
        rest_at body p ≡ Then i s → InstructionAt body p i s }
    ensures stop { (body : List Instr) (p : ℕ) →
        p < length (flat_body body) → StopsAt body (p + size_of_all (rest_at body p)) }
{}

/// Bytes and instructions: each of the 104 has a byte of its own, the 68 bytes of floats and the 84 others mean none.
pub fn bytes_and_opcodes_are_inverse()
    ensures byte { (op : Opcode) → kind_of (code_of op) ≡ Kind.Op op }
    ensures op { (b : ℕ) (op : Opcode) → kind_of b ≡ Kind.Op op → code_of op ≡ b }
    ensures ops { (b : ℕ) → b < 256 → IsTrue (means_op (kind_of b)) ↔ IsTrue (is_op b) }
    ensures floats { (b : ℕ) → (kind_of b ≡ Kind.Float) ↔ IsTrue (is_float b) }
    ensures unused { (b : ℕ) → b < 256 → (kind_of b ≡ Kind.Unused) ↔ IsTrue (is_unused b) }
    ensures op_count { count_by is_op (range_with_len 0 256) ≡ 104 }
    ensures float_count { count_by is_float (range_with_len 0 256) ≡ 68 }
    ensures unused_count { count_by is_unused (range_with_len 0 256) ≡ 84 }
{}
