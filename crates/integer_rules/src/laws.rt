//! Laws over the definitions alone.

ghost use Rattle.std.specs.Prelude.{◌≡◌, ℕ, ◌<◌, ◌≤◌, ℤ, Some, IsTrue};
ghost use Rattle.wasm_values.specs.declared.number.ValType.{ValType};
ghost use Rattle.wasm_values.specs.declared.number.IntOp.{IntOp};
ghost use Rattle.wasm_values.specs.declared.number.NumOp.{NumOp};
ghost use Rattle.wasm_values.specs.Operators.{width_of};
ghost use Rattle.term_trees.specs.declared.term.Term.{Term};
ghost use Rattle.term_trees.specs.declared.term.Term.TheVariants as term;
ghost use Rattle.term_trees.specs.declared.term.Formula.{Formula};
ghost use Rattle.term_trees.specs.Terms.{is_low_width, is_sext_pair};
ghost use Rattle.integer_rules.specs.declared.rule.IntegerRule.{IntegerRule};
ghost use Rattle.integer_rules.specs.declared.rule.IntegerRule.TheVariants as rule;
ghost use Rattle.integer_rules.specs.Rows.{range_row, add_row, addwrap_row, sub_row, subwrap_row, mul_row, divu_row, divs_row, unsigned_claim, test_row, zero_row, signed_claim, tests_row, sgn_row, shift_as, shift_row, mask_row, changed, changed_row, low_row, sext_row};
ghost use Rattle.integer_rules.specs.Fits.{limit_of, is_among};
ghost use Rattle.integer_rules.specs.Truth.{KeepsTruth, Takes};

/// Where the premises and the conclusion are those of a rule, the conclusion is true under all numbers under which the
/// premises are.
pub fn rules_are_sound()
    ensures { (r : IntegerRule) → KeepsTruth r }
{}

/// Each row is an instance of its rule, at both widths and at all terms: what is read off a conclusion is what the row was
/// made of.
pub fn rows_are_instances()
    ensures range { (t : Term) (m : ℤ) → limit_of t ≡ Some m → Takes rule.Range (range_row t m) }
    ensures add { (v : ValType) (a b : Term) → Takes rule.Add (add_row v a b) }
    ensures addwrap { (v : ValType) (a b : Term) → Takes rule.Addwrap (addwrap_row v a b) }
    ensures sub { (v : ValType) (a b : Term) → Takes rule.Sub (sub_row v a b) }
    ensures subwrap { (v : ValType) (a b : Term) → Takes rule.Subwrap (subwrap_row v a b) }
    ensures mul { (v : ValType) (a b : Term) → Takes rule.Mul (mul_row v a b) }
    ensures divu { (v : ValType) (a b : Term) → Takes rule.Divu (divu_row v a b) }
    ensures divs { (v : ValType) (a b : Term) → Takes rule.Divs (divs_row v a b) }
    ensures test { (v : ValType) (a b : Term) (o : IntOp) (f : Formula) → unsigned_claim o a b ≡ Some f → Takes rule.Test (test_row v o a b f) }
    ensures zero { (v : ValType) (a : Term) → Takes rule.Test (zero_row v a) }
    ensures tests { (v : ValType) (a b : Term) (o : IntOp) (f : Formula) → signed_claim o (term.Sgn (width_of v) a) (term.Sgn (width_of v) b) ≡ Some f → Takes rule.Tests (tests_row v o a b f) }
    ensures sgn { (v : ValType) (a : Term) → Takes rule.Sgn (sgn_row v a) }
    ensures shift { (v : ValType) (a : Term) (o other : IntOp) (k : ℤ) → shift_as o ≡ Some other → IsTrue (is_among v k) → Takes rule.Shift (shift_row v o other a k) }
    ensures mask { (v : ValType) (a : Term) (k : ℕ) → 1 ≤ k → k < width_of v → Takes rule.Mask (mask_row v a k) }
    ensures widen { (o : NumOp) (a t : Term) → changed o a ≡ Some t → Takes rule.Widen (changed_row o a t) }
    ensures low { (k : ℕ) (a : Term) → IsTrue (is_low_width k) → Takes rule.Widen (low_row k a) }
    ensures sext { (k n : ℕ) (a : Term) → IsTrue (is_sext_pair k n) → Takes rule.Widen (sext_row k n a) }
{}
