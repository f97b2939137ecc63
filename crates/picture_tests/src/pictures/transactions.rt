//! Transactions, whole files of them, and what is answered to each.

use super::fields::{put, put_colours, put_u16s};
use super::parts::Colour;
use std::alloc::{AllocError, Global};
use std::test::Fail;

/// What is answered to a transaction.
#[derive(Clone, Copy)]
pub(super) enum Answer<'a> {
    /// Accepted without a frame.
    Accepted,
    /// Refused: the code, and the position.
    Refused(u8, u32),
    /// A frame: its sides, each drawn pipeline with its list's epoch, the pixels by rows.
    Frame([u16; 2], &'a [(u8, u32)], &'a [Colour]),
}

/// A transaction of the root pipeline with a frame.
pub(super) fn shown(alloc: Global, operations: &[&[u8]]) -> Result<Vec<u8>, Fail> {
    transaction(alloc, 0, true, operations)
}

/// A transaction of the root pipeline without a frame.
pub(super) fn sent(alloc: Global, operations: &[&[u8]]) -> Result<Vec<u8>, Fail> {
    transaction(alloc, 0, false, operations)
}

/// A transaction of a pipeline, with or without a frame.
pub(super) fn transaction(
    alloc: Global,
    pipeline: u8,
    frame: bool,
    operations: &[&[u8]],
) -> Result<Vec<u8>, Fail> {
    let count = u16::try_from(operations.len())
        .ok()
        .ok_or("few operations")?;
    let mut payload = [pipeline, u8::from(frame)].to_vec(alloc)?;
    payload.extend_from_slice(&count.to_le_bytes())?;
    put(&mut payload, operations)?;
    let size = u32::try_from(payload.len())
        .ok()
        .ok_or("the payload is short")?;
    let mut bytes = Vec::new(alloc);
    put(&mut bytes, &[b"T", &size.to_le_bytes(), &payload])?;
    Ok(bytes)
}

/// The bytes of a file of these transactions.
pub(super) fn file_of(alloc: Global, transactions: &[&[u8]]) -> Result<Vec<u8>, AllocError> {
    let mut file = b"WRT1".to_vec(alloc)?;
    put(&mut file, transactions)?;
    file.push(b'Z')?;
    Ok(file)
}

/// The bytes that answer a whole file with these answers.
pub(super) fn answered(alloc: Global, answers: &[Answer<'_>]) -> Result<Vec<u8>, AllocError> {
    let mut out = b"WRF1".to_vec(alloc)?;
    for answer in answers {
        put_answer(&mut out, *answer)?;
    }
    out.push(b'Z')?;
    Ok(out)
}

/// Appends an answer.
fn put_answer(out: &mut Vec<u8>, answer: Answer<'_>) -> Result<(), AllocError> {
    match answer {
        Answer::Accepted => Ok(out.push(b'A')?),
        Answer::Refused(code, at) => put(out, &[b"X", &[code], &at.to_le_bytes()]),
        Answer::Frame(sides, drawn, pixels) => {
            out.push(b'F')?;
            put_u16s(out, &sides)?;
            put_drawn(out, drawn)?;
            put_colours(out, pixels)
        }
    }
}

/// Appends the count of drawn pipelines, and each of them with its epoch.
fn put_drawn(out: &mut Vec<u8>, drawn: &[(u8, u32)]) -> Result<(), AllocError> {
    out.push(u8::try_from(drawn.len()).unwrap_or(255))?;
    for (pipeline, epoch) in drawn {
        put(out, &[&[*pipeline], &epoch.to_le_bytes()])?;
    }
    Ok(())
}
