ghost use Rattle.std.specs.Prelude.{◌≡◌, IfOk};
ghost use Rattle.report_lines.specs.Reports.{IsSpoken, seen};

use crate::status::Status;
use std::alloc::{AllocError, Global};
use thiserror::Error;
use wasm_values::OutOfMemory;

/// What a run writes, and what it comes to.
#[derive(Drop)]
pub struct Report {
    pub text: Vec<u8>,
    pub status: Status,
}

/// Why a run has no report.
#[derive(Clone, Copy, Debug, Error)]
pub enum Stop {
    #[error("words of no listed form")]
    Words,
    #[error("a file could not be read")]
    Read,
    #[error("out of memory")]
    Memory,
}

impl From<OutOfMemory> for Stop {
    ghost use Rattle.report_lines.specs.declared.report.Stop.TheVariants.{Memory};

    ghost from_gives = { λ _ stop. stop ≡ Memory };

    fn from(_: OutOfMemory) -> Stop {
        Stop::Memory
    }
}

impl From<AllocError> for Stop {
    ghost use Rattle.report_lines.specs.declared.report.Stop.TheVariants.{Memory};

    ghost from_gives = { λ _ stop. stop ≡ Memory };

    fn from(_: AllocError) -> Stop {
        Stop::Memory
    }
}

/// A report of one line that never differs.
pub fn fixed(alloc: Global, text: &[u8], status: Status) -> Result<Report, OutOfMemory>
    requires { IsSpoken status }
    ensures made { IfOk result (λ r. seen r ≡ record { text = text.now; status = status }) }
    ensures spoken { IfOk result (λ r. IsSpoken r.status) }
{
    Ok(Report {
        text: Vec::from_slice(alloc, text)?,
        status,
    })
}

/// A report of what was refused.
pub fn negative(text: Vec<u8>) -> Report
    ensures { seen result ≡ record { text = text.items; status = Status.Negative } }
{
    Report {
        text,
        status: Status::Negative,
    }
}
