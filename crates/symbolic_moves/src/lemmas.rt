// The uses of lemmas.

ghost use Rattle.std.specs.Prelude.{◌≡◌, ◌<◌, ◌≤◌, length, map, IfOk, IsTrue};
ghost use Rattle.std.specs.List.{All, list_all};
ghost use Rattle.wasm_values.specs.Answers.{Gives};
ghost use Rattle.term_trees.specs.Terms.{well_formed};
ghost use Rattle.term_trees.specs.Formulas.{well_formed_formula};
ghost use Rattle.term_trees.specs.Leaves.{replaced_formula};
ghost use Rattle.term_trees.specs.Same.{same_formula};
ghost use Rattle.term_logic.specs.Table.{tree_at};
ghost use Rattle.term_logic.specs.Formulas.{formula_bound, formula_of};
ghost use Rattle.notes.specs.WellFormed.{well_formed_notes};
ghost use Rattle.outline_rules.specs.HeapMoves.{is_fact};
ghost use Rattle.outline_rules.specs.Leaves.{move_leaves, all_taken};
ghost use Rattle.outline_rules.specs.Moves.{lemma_leaves, are_facts, lemma_used, lemma};
ghost use Rattle.symbolic_moves.specs.words.Parts.{lemma_found, lemma_taken, hyps_wanted};
ghost use Rattle.symbolic_state.specs.Refused.{refusal_of};
ghost use Rattle.symbolic_state.specs.Growth.{Grown};

use notes::{Lemma, Reason};
use outline_setting::Setting;
use symbolic_state::{Refused, TrackedState, in_place_of_variables};
use term_logic::{Formula, IdFormula, Term, TermId, TermTable};
use wasm_values::List;

/// Whether a fact is a hypothesis of a lemma, for these terms.
fn is_instance(table: &TermTable, hyp: &Formula, terms: &[TermId], fact: &IdFormula) -> bool
    requires terms { All (λ id. id < length table.now) terms.now }
    requires fact { formula_bound fact.now ≤ length table.now }
    ensures { result ≡ same_formula (formula_of table.now fact.now) (replaced_formula (lemma_leaves (map (tree_at table.now) terms.now)) hyp.now) }
{
    let leaves = in_place_of_variables(terms);
    table.is_replaced_formula(hyp, &leaves, fact)
}

/// Whether the fact with a number is a hypothesis of a lemma, for these terms.
fn is_hyp(state: &TrackedState, k: u32, hyp: &Formula, terms: &[TermId]) -> bool
    requires { All (λ id. id < length state.now.terms) terms.now }
    ensures { result ≡ is_fact state.now.state k (replaced_formula (lemma_leaves (map (tree_at state.now.terms) terms.now)) hyp.now) }
{
    match state.fact(k) {
        Some(fact) => is_instance(state.table(), hyp, terms, fact),
        None => false,
    }
}

/// Whether the facts with these numbers are the hypotheses of a lemma, for these terms.
fn are_hyps(state: &TrackedState, facts: &[u32], hyps: &[Formula], terms: &[TermId]) -> bool
    requires { All (λ id. id < length state.now.terms) terms.now }
    ensures { result ≡ are_facts state.now.state facts.now (map (replaced_formula (lemma_leaves (map (tree_at state.now.terms) terms.now))) hyps.now) }
{
    let mut rest = hyps;
    for k in facts {
        let Some((hyp, more)) = rest.split_first() else {
            return false;
        };
        if !is_hyp(state, *k, hyp, terms) {
            return false;
        }
        rest = more;
    }
    rest.is_empty()
}

/// The facts have to be the hypotheses of a lemma, for these terms.
fn hyps_wanted(
    state: &TrackedState,
    lemma: &Lemma,
    terms: &[TermId],
    facts: &[u32],
) -> Result<(), Refused>
    requires { All (λ id. id < length state.now.terms) terms.now }
    ensures { Gives refusal_of (λ _. tt) result (hyps_wanted lemma.now (map (tree_at state.now.terms) terms.now) facts.now state.now.state) }
{
    if terms.len() != lemma.vars as usize || facts.len() != lemma.hyps.len() {
        return Err(Refused::Reason(Reason::Use));
    }
    if !are_hyps(state, facts, lemma.hyps.as_slice(), terms) {
        return Err(Refused::Reason(Reason::Fact));
    }
    Ok(())
}

/// A lemma for these terms: its goal is one more fact.
fn lemma_used(
    state: &mut TrackedState,
    lemma: &Lemma,
    terms: &[TermId],
    facts: &[u32],
) -> Result<(), Refused>
    requires terms { All (λ id. id < length state.old.terms) terms.now }
    requires goal { IsTrue (well_formed_formula lemma.now.goal) }
    ensures done { Gives refusal_of (λ _. state.new.state) result (lemma_used lemma.now (map (tree_at state.old.terms) terms.now) facts.now state.old.state) }
    ensures kept { IfOk result (λ _. Grown state.old state.new) }
{
    hyps_wanted(state, lemma, terms, facts)?;
    state.add_instance(&lemma.goal, terms)
}

/// A lemma by its name.
#[tactic(auto, using(crate::proofs::Lemmata::finding))]
fn lemma_found<'a>(setting: &Setting<'a>, name: &str) -> Result<&'a Lemma, Refused>
    requires { IsTrue (well_formed_notes setting.now.notes) }
    ensures found { Gives refusal_of (λ l. l.now) result (lemma_found setting.now name.now) }
    ensures well_formed { IfOk result (λ l. IsTrue (well_formed_formula l.now.goal)) }
{
    match setting.lemma_named(name) {
        Some(lemma) => Ok(lemma),
        None => Err(Refused::Reason(Reason::Use)),
    }
}

/// What a use of a lemma does once its terms are taken.
fn lemma_taken(
    setting: &Setting<'_>,
    state: &mut TrackedState,
    name: &str,
    terms: &[TermId],
    facts: &[u32],
) -> Result<(), Refused>
    requires notes { IsTrue (well_formed_notes setting.now.notes) }
    requires terms { All (λ id. id < length state.old.terms) terms.now }
    ensures done { Gives refusal_of (λ _. state.new.state) result (lemma_taken setting.now name.now (map (tree_at state.old.terms) terms.now) facts.now state.old.state) }
    ensures kept { IfOk result (λ _. Grown state.old state.new) }
{
    let lemma = lemma_found(setting, name)?;
    lemma_used(state, lemma, terms, facts)
}

/// The same, for terms that are listed.
fn lemma_of_listed(
    setting: &Setting<'_>,
    state: &mut TrackedState,
    name: &str,
    terms: &List<TermId>,
    facts: &[u32],
) -> Result<(), Refused>
    requires notes { IsTrue (well_formed_notes setting.now.notes) }
    requires terms { All (λ id. id < length state.old.terms) terms.now }
    ensures done { Gives refusal_of (λ _. state.new.state) result (lemma_taken setting.now name.now (map (tree_at state.old.terms) terms.now) facts.now state.old.state) }
    ensures kept { IfOk result (λ _. Grown state.old state.new) }
{
    lemma_taken(setting, state, name, terms.as_slice(), facts)
}

/// `use`: the goal of a lemma, with terms for its variables, is one more fact.
pub fn lemma(
    setting: &Setting<'_>,
    state: &mut TrackedState,
    name: &str,
    terms: &[Term],
    facts: &[u32],
) -> Result<(), Refused>
    requires notes { IsTrue (well_formed_notes setting.now.notes) }
    requires terms { IsTrue (list_all well_formed terms.now) }
    ensures done { Gives refusal_of (λ _. state.new.state) result (lemma setting.now name.now terms.now facts.now state.old.state) }
    ensures kept { IfOk result (λ _. Grown state.old state.new) }
{
    let ids = state.all_taken(terms)?;
    lemma_of_listed(setting, state, name, &ids, facts)
}
