ghost use Rattle.std.specs.Prelude.{◌≡◌, ◌==◌, ◌^◌, ◌||◌, IfOk, IsTrue};
ghost use Rattle.wasm_values.specs.Answers.{Gives};
ghost use Rattle.notes.specs.WellFormed.{is_width};
ghost use Rattle.outline_rules.specs.HeapMoves.{greatest_in, half_of, width_by};
ghost use Rattle.heap_logic.specs.Faults.{refusal_of};

use crate::fault::MoveFault;
use crate::wanted::wanted;
use notes::Reason;

/// The width that a length is, where it is 1, 2, 4 or 8.
pub(crate) fn width_by(extent: Option<i128>) -> Result<u32, MoveFault>
    ensures width { Gives refusal_of (λ w. w) result (width_by extent) }
    ensures known { IfOk result (λ w. IsTrue (is_width w)) }
{
    match extent {
        Some(1) => Ok(1),
        Some(2) => Ok(2),
        Some(4) => Ok(4),
        Some(8) => Ok(8),
        _ => Err(MoveFault::NoMove(Reason::Chunk)),
    }
}

/// The half of a width of 2, 4 or 8.
pub(crate) fn half_of(width: u32) -> Result<u32, MoveFault>
    ensures half { Gives refusal_of (λ h. h) result (half_of width) }
    ensures known { IfOk result (λ h. IsTrue (h == 1 || (h == 2 || h == 4))) }
{
    wanted(Reason::Chunk, width == 2 || (width == 4 || width == 8))?;
    Ok(width / 2)
}

/// 256 to a width of 1, 2 or 4.
pub(crate) fn power_of(width: u32) -> u64
    requires { IsTrue (width == 1 || (width == 2 || width == 4)) }
    ensures { result ≡ 256 ^ width }
{
    if width == 1 {
        256
    } else if width == 2 {
        65_536
    } else {
        4_294_967_296
    }
}

/// The greatest number that so many bytes spell.
pub(crate) fn greatest_in(width: u32) -> u64
    requires { IsTrue (is_width width) }
    ensures { result ≡ greatest_in width }
{
    if width == 1 {
        255
    } else if width == 2 {
        65_535
    } else if width == 4 {
        4_294_967_295
    } else {
        18_446_744_073_709_551_615
    }
}
