//! Laws over the definitions alone: each rule draws a true conclusion from true premises.

ghost use Rattle.std.specs.Prelude.{ℤ, List, IsTrue};
ghost use Rattle.std.specs.List.{All};
ghost use Rattle.term_trees.specs.declared.term.Formula.{Formula};
ghost use Rattle.term_trees.specs.Meaning.{Numbers, holds};
ghost use Rattle.equality_rules.specs.Equality.{is_refl, is_eval, is_order, is_notle, is_notlt, is_mulpos, is_floor, is_ceil};
ghost use Rattle.equality_rules.specs.Linear.{is_linear};
ghost use Rattle.equality_rules.specs.Rewrite.{is_rewrite};

/// The ten rules of equality and order.
pub fn equality_rules_are_sound()
    ensures refl { (n : Numbers) (c : Formula) → IsTrue (is_refl c) → IsTrue (holds n c) }
    ensures rewrite { (n : Numbers) (e f c : Formula) → IsTrue (holds n e) → IsTrue (holds n f) → IsTrue (is_rewrite e f c) → IsTrue (holds n c) }
    ensures eval { (n : Numbers) (c : Formula) → IsTrue (is_eval c) → IsTrue (holds n c) }
    ensures linear { (n : Numbers) (fs : List Formula) (ks : List ℤ) (c : Formula) → All (λ f. IsTrue (holds n f)) fs → IsTrue (is_linear fs ks c) → IsTrue (holds n c) }
    ensures floor { (n : Numbers) (p c : Formula) → IsTrue (holds n p) → IsTrue (is_floor p c) → IsTrue (holds n c) }
    ensures ceil { (n : Numbers) (p c : Formula) → IsTrue (holds n p) → IsTrue (is_ceil p c) → IsTrue (holds n c) }
    ensures order { (n : Numbers) (c : Formula) → IsTrue (is_order c) → IsTrue (holds n c) }
    ensures notle { (n : Numbers) (p c : Formula) → IsTrue (holds n p) → IsTrue (is_notle p c) → IsTrue (holds n c) }
    ensures notlt { (n : Numbers) (p c : Formula) → IsTrue (holds n p) → IsTrue (is_notlt p c) → IsTrue (holds n c) }
    ensures mulpos { (n : Numbers) (p q c : Formula) → IsTrue (holds n p) → IsTrue (holds n q) → IsTrue (is_mulpos p q c) → IsTrue (holds n c) }
{}
