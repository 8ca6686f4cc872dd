ghost use Rattle.std.specs.Prelude.{◌≡◌, ◌+◌, length};
ghost use Rattle.wasm_values.specs.Answers.{Gives};
ghost use Rattle.outline_rules.specs.Refusals.{limited};
ghost use Rattle.symbolic_state.specs.Refused.{refusal_of};
ghost use Rattle.symbolic_state.specs.words.Limits.{limits};

use crate::refused::Refused;
use crate::tracked::TrackedState;
use wasm_values::LimitWord;

/// The greatest number of nodes of a term or formula.
pub(crate) const NODES: usize = 4096;

/// A test that a limit isn't passed.
fn limited(word: LimitWord, kept: bool) -> Result<(), Refused>
    ensures { Gives refusal_of (λ _. tt) result (limited word kept) }
{
    if kept {
        Ok(())
    } else {
        Err(Refused::Limit(word))
    }
}

/// The limits of a state with so many variables, facts, chunks and nodes. What is made for it is within its own limit or not.
pub(crate) fn within_limits(
    made: bool,
    variables: usize,
    facts: usize,
    chunks: usize,
    nodes: usize,
) -> Result<(), Refused>
    ensures { Gives refusal_of (λ _. tt) result (limits made variables facts chunks nodes) }
{
    limited(LimitWord::Nodes, made)?;
    limited(LimitWord::Variables, variables <= 1_000_000)?;
    limited(LimitWord::Facts, facts <= 4096)?;
    limited(LimitWord::Chunks, chunks <= 1024)?;
    limited(LimitWord::State, nodes <= 1_000_000)
}

impl TrackedState {
    /// The limits of a state with so many variables, facts and chunks more, and so many nodes in all.
    pub(crate) fn room(
        &self,
        made: bool,
        variables: u32,
        facts: u32,
        chunks: u32,
        nodes: usize,
    ) -> Result<(), Refused>
        ensures { Gives refusal_of (λ _. tt) result (limits made (self.now.state.vars + variables) (length self.now.state.facts + facts) (length self.now.state.chunks + chunks) nodes) }
    {
        let heap = &self.state.heap;
        within_limits(
            made,
            heap.vars as usize + variables as usize,
            heap.facts.len() + facts as usize,
            heap.chunks.len() + chunks as usize,
            nodes,
        )
    }
}
