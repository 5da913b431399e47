// The input.
ghost use Rattle.std.specs.Prelude.{◌≡◌, ◌≢◌, ◌≤◌, ℕ, List, take, drop, true, IfOk, IfErr, Some};
ghost use Rattle.edge_io.specs.Causes.{Rose};
ghost use Rattle.vcg_top.specs.Commands.{most_read};
ghost use Rattle.vcg_top.specs.declared.reading.ReadError.TheVariants.{Fault};

use edge_io::Source;
use std::alloc::Global;
use thiserror::Error;

/// So many bytes are read at most: one more than a deck may have.
const MOST: usize = 1_048_577;

/// Why an input is not had.
#[derive(Clone, Copy, Debug, PartialEq, Eq, Error)]
pub(crate) enum ReadError {
    /// The source failed.
    #[error("the source failed")]
    Fault,
    /// Memory was wanted and not had.
    #[error("out of memory")]
    NoMemory,
}

/// Reads to the first read that answers no byte, and no more than the most that is read of an
/// input.
pub(crate) fn read_all<S: Source>(alloc: Global, source: &mut S) -> Result<Vec<u8>, ReadError>
    // Of a source that tells its bytes, the front is answered, and what is behind it is left.
    ensures told { (bytes : List ℕ) → S.left source.old ≡ Some bytes
        → IfOk result (λ v. (v.items ≡ take most_read bytes) × (S.left source.new ≡ Some
        (drop most_read bytes))) }
    ensures later { S.faults source.old ≤ S.faults source.new }
    ensures fault { IfErr result (λ e. e ≡ Fault → Rose (S.faults source.old) (S.faults source.new)) }
    ensures kept { S.never source.new ≡ S.never source.old }
    ensures steady { S.never source.old ≡ true → IfErr result (λ e. e ≢ Fault) }
{
    let mut bytes = Vec::new(alloc);
    let mut buffer = [0; 4096];
    while bytes.len() < MOST {
        let room = (MOST - bytes.len()).min(buffer.len());
        let Ok(count) = source.read(&mut buffer[..room]) else {
            return Err(ReadError::Fault);
        };
        if count == 0 {
            return Ok(bytes);
        }
        let Ok(()) = bytes.extend_from_slice(&buffer[..count]) else {
            return Err(ReadError::NoMemory);
        };
    }
    Ok(bytes)
}
