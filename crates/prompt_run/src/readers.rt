//! Reading a source to its end.
ghost use Rattle.std.specs.Prelude.{◌≡◌, ◌+◌, ◌≤◌, ◌<◌, [], length, vec_len, Err, IfOk, OnOk, MatchBool};
ghost use Rattle.std.specs.Io.KnownBytes.{Consumes, IsAtEnd};
ghost use Rattle.causes.specs.Faults.{Rose};
ghost use Rattle.prompt_run.specs.Source.{IsRead, Reads, ReadsScript};

use ports::Source;
use std::alloc::{AllocError, Global};
use thiserror::Error;

/// The most bytes of a script.
pub const MAX_SCRIPT: usize = 67_108_864;

/// The bytes of one read.
const READ_SIZE: usize = 65_536;

/// Why a source was not read to its end.
#[derive(Clone, Copy, Debug, PartialEq, Eq, Error)]
pub enum ReadFault {
    /// A read failed.
    #[error("a read failed")]
    Failed,
    /// There was no memory for what was read.
    #[error("no memory for what was read")]
    NoMemory,
}

impl From<AllocError> for ReadFault {
    ghost use Rattle.std.specs.Prelude.{◌≡◌};
    ghost use Rattle.prompt_run.specs.declared.readers.ReadFault.TheVariants.{NoMemory};

    ghost from_gives = { λ _ e. e ≡ NoMemory };

    fn from(_fault: AllocError) -> ReadFault {
        ReadFault::NoMemory
    }
}

#[tactic(auto, using(crate::proofs::SourceLemmas::reads_script))]
/// Reads the source to its end, or to the first byte behind the most bytes of a script.
pub fn read_script<R: Source>(alloc: Global, source: &mut R) -> Result<Vec<u8>, ReadFault>
    ensures script { IfOk result (λ script. ReadsScript (R.supply source.old).left
        (R.supply source.new).left script.items) }
    ensures later { (R.supply source.old).faults ≤ (R.supply source.new).faults }
    ensures failed { result ≡ Err ReadFault.Failed
        → Rose (R.supply source.old).faults (R.supply source.new).faults }
{
    let mut script = Vec::new(alloc);
    let mut buffer = new_buffer(alloc, READ_SIZE)?;
    read_all(source, buffer.as_mut_slice(), &mut script)?;
    Ok(script)
}

#[tactic(auto, using(crate::proofs::SourceLemmas::reads_then))]
/// Reads on until the end of the source, or until more came than a script has.
fn read_all<R: Source>(
    source: &mut R,
    buffer: &mut [u8],
    script: &mut Vec<u8>,
) -> Result<(), ReadFault>
    requires room { 0 < length buffer.old }
    requires empty { script.old.items ≡ [] }
    ensures bytes { OnOk result (Consumes (R.supply source.old).left (R.supply source.new).left
        script.new.items) }
    ensures read { OnOk result (IsRead (R.supply source.new).left script.new.items) }
    ensures few { OnOk result (length script.new.items ≤ 67108865) }
    ensures later { (R.supply source.old).faults ≤ (R.supply source.new).faults }
    ensures failed { result ≡ Err ReadFault.Failed
        → Rose (R.supply source.old).faults (R.supply source.new).faults }
{
    for _ in 0..=MAX_SCRIPT {
        let room = buffer.len().min(MAX_SCRIPT + 1 - script.len());
        let (into, _) = buffer.split_at_mut(room);
        let more = read_once(source, into, script)?;
        if !more || script.len() > MAX_SCRIPT {
            return Ok(());
        }
    }
    Ok(())
}

/// Returns a buffer of this many bytes.
fn new_buffer(alloc: Global, size: usize) -> Result<Vec<u8>, AllocError>
    requires { 0 < size }
    ensures { IfOk result (λ buffer. 0 < length buffer.items) }
{
    vec![in alloc; 0u8; size]
}

/// Reads once, puts what came behind the script, and answers whether anything came.
fn read_once<R: Source>(
    source: &mut R,
    buffer: &mut [u8],
    script: &mut Vec<u8>,
) -> Result<bool, ReadFault>
    requires room { 0 < length buffer.old }
    ensures later { (R.supply source.old).faults ≤ (R.supply source.new).faults }
    ensures failed { result ≡ Err ReadFault.Failed
        → Rose (R.supply source.old).faults (R.supply source.new).faults }
    ensures bytes { OnOk result (Reads (R.supply source.old).left (R.supply source.new).left
        script.old.items script.new.items) }
    ensures few { OnOk result (length script.new.items
        ≤ length script.old.items + length buffer.old) }
    ensures more { IfOk result (λ more. MatchBool more (vec_len script.old < vec_len script.new)
        (IsAtEnd (R.supply source.new).left)) }
{
    let count = match source.read(buffer) {
        Ok(count) => count,
        Err(_) => return Err(ReadFault::Failed),
    };
    let (came, _) = buffer.split_at(count);
    script.extend_from_slice(came)?;
    Ok(count > 0)
}
