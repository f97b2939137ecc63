//! Parts of an input, read piece by piece. After an error fewer bytes than asked were taken, and no call
//! is made again.

ghost use Rattle.std.specs.Prelude.{◌+◌, ◌≤◌, ◌<◌, ◌^◌, [], ◌≡◌, length, IfSome, IfOk, OnOk, IfErr};
ghost use Rattle.record_frame.specs.Framing.{entry};
ghost use Rattle.record_frame.specs.Transactions.{first_sized, first_payload};
ghost use Rattle.record_frame.specs.Reading.{Took, Gets, GetsTag, Decides, DecidesWith, ReadCause};

use crate::error::ReadError;
use crate::limits::{MAX_PAYLOAD_BYTES, MAX_PIECE_BYTES};
use wr_io::{Source, read_exact};

/// Fills `out` with the next bytes.
pub fn fill<S: Source>(source: &mut S, out: &mut [u8]) -> Result<(), ReadError>
    ensures told { IfSome (S.left source.old) (λ bytes. Took bytes (S.left source.new) (Gets result (length out.new) [] out.new)) }
    ensures never_falls { S.faults source.old ≤ S.faults source.new }
    ensures ok_keeps_count { OnOk result (S.faults source.new ≡ S.faults source.old) }
    ensures causes { IfErr result (ReadCause (S.faults source.old) (S.faults source.new)) }
{
    match read_exact(source, out) {
        Ok(count) if count == out.len() => Ok(()),
        Ok(_) => Err(ReadError::Broken),
        Err(_) => Err(ReadError::Failed),
    }
}

/// Appends the next `count` bytes to the payload.
fn read_piece<S: Source>(
    source: &mut S,
    count: usize,
    payload: &mut Vec<u8>,
) -> Result<(), ReadError>
    requires some { 0 < count }
    requires room { length payload.old.items + count < 2 ^ 64 }
    ensures grown { OnOk result (length payload.new.items ≡ length payload.old.items + count) }
    ensures told { IfSome (S.left source.old) (λ bytes. Took bytes (S.left source.new) (Gets result count payload.old.items payload.new.items)) }
    ensures never_falls { S.faults source.old ≤ S.faults source.new }
    ensures ok_keeps_count { OnOk result (S.faults source.new ≡ S.faults source.old) }
    ensures causes { IfErr result (ReadCause (S.faults source.old) (S.faults source.new)) }
{
    let start = payload.len();
    payload.resize(start + count, 0)?;
    fill(source, &mut payload[start..])
}

/// Reads a payload of this length in bytes.
fn read_bytes<S: Source>(
    source: &mut S,
    size: usize,
    payload: &mut Vec<u8>,
) -> Result<(), ReadError>
    requires { size ≤ MAX_PAYLOAD_BYTES }
    ensures filled { OnOk result (length payload.new.items ≡ size) }
    ensures told { IfSome (S.left source.old) (λ bytes. Took bytes (S.left source.new) (Decides 0 (first_payload size) (λ _. entry payload.new.items) result)) }
    ensures never_falls { S.faults source.old ≤ S.faults source.new }
    ensures ok_keeps_count { OnOk result (S.faults source.new ≡ S.faults source.old) }
    ensures causes { IfErr result (ReadCause (S.faults source.old) (S.faults source.new)) }
{
    payload.clear();
    while payload.len() < size {
        read_piece(source, (size - payload.len()).min(MAX_PIECE_BYTES), payload)?;
    }
    Ok(())
}

/// Reads the length in bytes of a payload.
fn read_length<S: Source>(source: &mut S) -> Result<usize, ReadError>
    ensures told { IfSome (S.left source.old) (λ bytes. Took bytes (S.left source.new) (DecidesWith 4 first_sized first_payload result)) }
    ensures limit { IfOk result (λ n. n ≤ MAX_PAYLOAD_BYTES) }
    ensures never_falls { S.faults source.old ≤ S.faults source.new }
    ensures ok_keeps_count { OnOk result (S.faults source.new ≡ S.faults source.old) }
    ensures causes { IfErr result (ReadCause (S.faults source.old) (S.faults source.new)) }
{
    let mut bytes = [0u8; 4];
    fill(source, &mut bytes)?;
    let length = u32::from_le_bytes(bytes);
    if length > MAX_PAYLOAD_BYTES {
        return Err(ReadError::Broken);
    }
    Ok(length as usize)
}

/// Reads the length of a payload, and its bytes into `payload`. No byte of a payload is taken that is
/// longer than 64 MiB.
pub fn read_payload<S: Source>(source: &mut S, payload: &mut Vec<u8>) -> Result<(), ReadError>
    ensures limit { OnOk result (length payload.new.items ≤ MAX_PAYLOAD_BYTES) }
    ensures told { IfSome (S.left source.old) (λ bytes. Took bytes (S.left source.new) (Decides 4 first_sized (λ _. entry payload.new.items) result)) }
    ensures never_falls { S.faults source.old ≤ S.faults source.new }
    ensures ok_keeps_count { OnOk result (S.faults source.new ≡ S.faults source.old) }
    ensures causes { IfErr result (ReadCause (S.faults source.old) (S.faults source.new)) }
{
    let length = read_length(source)?;
    read_bytes(source, length, payload)
}

/// Reads one byte, with which a record begins.
pub fn read_tag<S: Source>(source: &mut S) -> Result<u8, ReadError>
    ensures told { IfSome (S.left source.old) (λ bytes. Took bytes (S.left source.new) (GetsTag result)) }
    ensures never_falls { S.faults source.old ≤ S.faults source.new }
    ensures ok_keeps_count { OnOk result (S.faults source.new ≡ S.faults source.old) }
    ensures causes { IfErr result (ReadCause (S.faults source.old) (S.faults source.new)) }
{
    let mut tag = [0u8; 1];
    fill(source, &mut tag)?;
    Ok(tag[0])
}
