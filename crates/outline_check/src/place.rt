ghost use Rattle.std.specs.Prelude.{◌≡◌, ◌≢◌, Result};
ghost use Rattle.outline_check.specs.declared.stop.Refusal.{Refusal};
ghost use Rattle.outline_check.specs.Refusals.{HasMemory, failed, stops_at, IsSaid, IsAnswer, answered};

use crate::answer::{Answer, CheckFault};
use crate::stop::{Refusal, Why};
use wasm_values::OrMemory;

/// The outcome, with the place and the function where it is a refusal.
pub fn placed<T>(
    at: usize,
    function: Option<u32>,
    outcome: Result<T, OrMemory<Why>>,
) -> Result<T, OrMemory<Refusal>>
    ensures { result ≡ stops_at at function outcome }
{
    match outcome {
        Ok(value) => Ok(value),
        Err(OrMemory::Fault(why)) => Err(OrMemory::Fault(Refusal { at, function, why })),
        Err(OrMemory::OutOfMemory) => Err(OrMemory::OutOfMemory),
    }
}

fn failed(refusal: Refusal) -> Result<Answer, CheckFault>
    ensures said { IsAnswer result (failed refusal) }
    ensures memory { result ≢ Err CheckFault.OutOfMemory }
{
    let Refusal { at, function, why } = refusal;
    match why {
        Why::Reason(reason) => Ok(Answer::Failed {
            at,
            function,
            reason,
        }),
        Why::Limit(word) => Err(CheckFault::Limit { at, word }),
    }
}

/// What the check answers for the tests of a whole module.
pub fn answered(outcome: Result<(), OrMemory<Refusal>>) -> Result<Answer, CheckFault>
    ensures said { (said : Result (Unit {0}) Refusal) → IsSaid outcome said → IsAnswer result (answered said) }
    ensures memory { HasMemory outcome → result ≢ Err CheckFault.OutOfMemory }
{
    match outcome {
        Ok(()) => Ok(Answer::Verified),
        Err(OrMemory::Fault(refusal)) => failed(refusal),
        Err(OrMemory::OutOfMemory) => Err(CheckFault::OutOfMemory),
    }
}
