ghost use Rattle.std.specs.Prelude.{◌≡◌, ◌↔◌, ℤ, Bool, Some, IsTrue};
ghost use Rattle.term_trees.specs.declared.term.Term.{Term};
ghost use Rattle.term_trees.specs.declared.term.Formula.{Formula};
ghost use Rattle.term_trees.specs.declared.forms.Normal.{Normal};
ghost use Rattle.term_trees.specs.Meaning.{Numbers, value, holds};
ghost use Rattle.term_trees.specs.Ground.{ground_value, ground_truth};
ghost use Rattle.term_trees.specs.Leaves.{Leaves, Stands, replaced, replaced_formula};
ghost use Rattle.term_trees.specs.Normal.{normal_form, normal_value};
ghost use Rattle.term_trees.specs.Same.{same, same_formula};
ghost use Rattle.term_trees.specs.Scopes.{Scope, in_scope, formula_in_scope, Agree};

/// A term or a formula whose leaves are replaced means what it means where each leaf has the value of what stands in
/// its place.
pub fn replacing_keeps_values()
    ensures terms { (l : Leaves) (n m : Numbers) → Stands l n m → (t : Term) → value n (replaced l t) ≡ value m t }
    ensures formulas { (l : Leaves) (n m : Numbers) → Stands l n m → (f : Formula) → holds n (replaced_formula l f) ≡ holds m f }
{}

/// A term with a normal form has the value of that form.
pub fn normal_form_has_the_value()
    ensures { (n : Numbers) (t : Term) (f : Normal) → normal_form t ≡ Some f → normal_value n f ≡ value n t }
{}

/// A ground value is the value under any numbers, and a ground truth the truth.
pub fn ground_under_any_numbers()
    ensures values { (n : Numbers) (t : Term) (z : ℤ) → ground_value t ≡ Some z → value n t ≡ z }
    ensures truths { (n : Numbers) (f : Formula) (b : Bool) → ground_truth f ≡ Some b → holds n f ≡ b }
{}

/// Two terms, or two formulas, are the same exactly where they are one tree.
pub fn sameness_is_equality()
    ensures terms { (t u : Term) → IsTrue (same t u) ↔ (t ≡ u) }
    ensures formulas { (f g : Formula) → IsTrue (same_formula f g) ↔ (f ≡ g) }
{}

/// Numbers that agree on some leaves give each term, and each formula, whose leaves are among these one meaning.
pub fn agreeing_numbers_mean_the_same()
    ensures terms { (s : Scope) (n m : Numbers) → Agree s n m → (t : Term) → IsTrue (in_scope s t) → value n t ≡ value m t }
    ensures formulas { (s : Scope) (n m : Numbers) → Agree s n m → (f : Formula) → IsTrue (formula_in_scope s f) → holds n f ≡ holds m f }
{}
