//! Reading a file whole.
ghost use Rattle.std.specs.Prelude.{◌≡◌, ◌≤◌, ◌<◌, ◌⊎◌, IfOk, OnOk, IfSome, IsErrOf, IsSome, length, vec_len};
ghost use Rattle.std.specs.Io.KnownBytes.{IsAtEnd};
ghost use Rattle.rw_edge.specs.Count.{Faulted, NeverFalls};
ghost use Rattle.rw_edge.specs.Files.{Lacks, IfContents, IsLonger};

use crate::error::ReadFault;
use crate::shelf::Shelf;
use std::alloc::Global;
use wasm_values::Bytes;

/// How many bytes one read asks for at most.
const CHUNK: usize = 4096;

/// Reads a file to its end, unless it has more bytes than `limit`.
pub fn read_file<S: Shelf>(
    alloc: Global,
    shelf: &mut S,
    name: &str,
    limit: usize,
) -> Result<Bytes, ReadFault>
    ensures files { S.files shelf.new ≡ S.files shelf.old }
    ensures count { NeverFalls (S.faults shelf.old) (S.faults shelf.new) }

    // The whole contents, read to their end.
    ensures whole { IfOk result (λ bytes. IfContents (S.files shelf.old) name.now (λ contents. bytes ≡ contents)) }
    ensures limited { IfOk result (λ bytes. length bytes ≤ limit) }
    ensures end { OnOk result (IsAtEnd (S.left shelf.new)) }

    // A fault is the shelf's own, or a name that the told files lack.
    ensures failed { IsErrOf result ReadFault.Failed
        → Faulted (S.faults shelf.old) (S.faults shelf.new) ⊎ Lacks (S.files shelf.old) name.now }
    ensures missing { Lacks (S.files shelf.old) name.now
        → IsErrOf result ReadFault.Failed × (S.faults shelf.new ≡ S.faults shelf.old) }

    // A file that is too long is told as such, unless the shelf fails or memory is wanting.
    ensures too_long { IsErrOf result ReadFault.TooLong → IsSome (S.files shelf.old)
        → IsLonger (S.files shelf.old) name.now limit }
    ensures longer { IsLonger (S.files shelf.old) name.now limit
        → IsErrOf result ReadFault.TooLong
        ⊎ (IsErrOf result ReadFault.OutOfMemory
        ⊎ (IsErrOf result ReadFault.Failed × Faulted (S.faults shelf.old) (S.faults shelf.new))) }
{
    shelf.begin(name)?;
    Ok(Bytes::from_vec(read_left(alloc, shelf, limit)?))
}

/// Reads what is left of the file that was begun.
fn read_left<S: Shelf>(alloc: Global, shelf: &mut S, limit: usize) -> Result<Vec<u8>, ReadFault>
    ensures files { S.files shelf.new ≡ S.files shelf.old }
    ensures count { NeverFalls (S.faults shelf.old) (S.faults shelf.new) }
    ensures whole { IfOk result (λ bytes. IfSome (S.left shelf.old) (λ left. bytes.items ≡ left)) }
    ensures limited { IfOk result (λ bytes. vec_len bytes ≤ limit) }
    ensures end { OnOk result (IsAtEnd (S.left shelf.new)) }
    ensures failed { IsErrOf result ReadFault.Failed → Faulted (S.faults shelf.old) (S.faults shelf.new) }
    ensures too_long { IsErrOf result ReadFault.TooLong → IfSome (S.left shelf.old) (λ left. limit < length left) }
{
    let mut bytes = Vec::new(alloc);
    let mut chunk = [0u8; CHUNK];
    loop {
        let allowed = limit - bytes.len();
        let asked = allowed.min(CHUNK - 1) + 1;
        let given = shelf.read(&mut chunk[..asked])?;
        if given == 0 {
            return Ok(bytes);
        }
        if given > allowed {
            return Err(ReadFault::TooLong);
        }
        bytes.extend_from_slice(&chunk[..given])?;
    }
}
