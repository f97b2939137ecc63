use blend_rules::Px;
use std::alloc::{AllocError, Global};
use txn_format::*;
use wr_io::DecodeError;

/// A transaction with every operation.
const WHOLE: [u8; 117] = [
    0, 1, 13, 0, // 0: pipeline, frame, count
    1, 7, 0, 0, 0, 3, 0, 0, 0, 9, 8, 7, // 4: SetList
    2, // 16: RemovePipeline
    3, 5, 0, 0, 0, 16, 0, 0, 0, 240, 255, // 17: Scroll
    4, 0, 254, 255, 1, 0, 0, 0, 255, 255, 255, 255, // 28: SetProperty, an offset
    4, 1, 0, 0, 128, // 40: SetProperty, an opacity
    5, 1, 0, 0, 0, 2, 0, 1, 0, 1, 2, 3, 4, 5, 6, 7, 8, // 45: AddImage
    6, 1, 0, 0, 0, 1, 0, 0, 0, 1, 0, 1, 0, 9, 9, 9, 9, // 62: UpdateImage
    7, 1, 0, 0, 0, // 79: DeleteImage
    8, 3, 0, 4, 0, 1, 0, 2, 0, 50, 60, // 84: AddGlyph
    9, 3, 0, // 95: DeleteFont
    10, 0, 16, 1, 0, 1, 2, 3, 4, // 98: SetView
    11, 0, 1, 64, 0, 0, 64, 0, 0, // 107: TilePolicy
    12, // 116: DropTiles
];

/// Where each field of it begins.
const STARTS: [u32; 52] = [
    0, 1, 2, 4, 5, 9, 13, 16, 17, 18, 20, 24, 28, 29, 30, 32, 36, 40, 41, 42, 44, 45, 46, 50, 52,
    54, 62, 63, 67, 69, 71, 73, 75, 79, 80, 84, 85, 87, 89, 91, 93, 95, 96, 98, 99, 101, 103, 107,
    108, 110, 112, 116,
];

/// Bytes that are put into it at a position, and the code and position of the fault that this makes.
const WRONG: [(usize, &[u8], u8, u32); 51] = [
    (0, &[64], 3, 0),
    (0, &[1], 9, 98),
    (1, &[2], 3, 1),
    (2, &[12, 0], 14, 116),
    (2, &[14, 0], 2, 117),
    (4, &[0], 1, 4),
    (4, &[13], 1, 4),
    (9, &[4, 0, 0, 0], 2, 117),
    (9, &[255, 255, 255, 255], 2, 13),
    (16, &[0], 1, 16),
    (20, &[1, 0, 16, 0], 3, 20),
    (20, &[255, 255, 239, 255], 3, 20),
    (24, &[1, 0, 16, 0], 3, 24),
    (24, &[255, 255, 239, 255], 3, 24),
    (29, &[2], 3, 29),
    (30, &[255, 255], 3, 30),
    (32, &[1, 0, 16, 0], 3, 32),
    (36, &[255, 255, 239, 255], 3, 36),
    (42, &[255, 255], 3, 42),
    (50, &[0, 0], 13, 50),
    (50, &[1, 16], 13, 50),
    (52, &[0, 0], 13, 52),
    (52, &[1, 16], 13, 52),
    (52, &[0, 16], 2, 54),
    (71, &[0, 0], 13, 71),
    (71, &[1, 16], 13, 71),
    (73, &[0, 0], 13, 73),
    (73, &[1, 16], 13, 73),
    (73, &[0, 16], 2, 75),
    (89, &[0, 0], 13, 89),
    (89, &[1, 16], 13, 89),
    (91, &[0, 0], 13, 91),
    (91, &[1, 16], 13, 91),
    (91, &[25, 0], 2, 93),
    (99, &[0, 0], 3, 99),
    (99, &[1, 16], 3, 99),
    (101, &[0, 0], 3, 101),
    (101, &[1, 16], 3, 101),
    (103, &[5], 6, 103),
    (104, &[5], 6, 103),
    (105, &[5], 6, 103),
    (108, &[63, 0], 3, 108),
    (108, &[1, 4], 3, 108),
    (110, &[63, 0], 3, 110),
    (110, &[1, 4], 3, 110),
    (112, &[0, 0, 0, 0], 3, 112),
    (112, &[1, 0, 1, 0], 3, 112),
    (112, &[0, 0, 1, 0], 13, 112),
    (112, &[1, 64, 0, 0], 13, 112),
    (116, &[13], 1, 116),
    (116, &[255], 1, 116),
];

/// Short payloads, and the code and position of the fault of each.
const SHORT: [(&[u8], u8, u32); 10] = [
    (&[], 2, 0),
    (&[64, 0, 0, 0], 3, 0),
    (&[0, 2, 0, 0], 3, 1),
    (&[0, 0, 0, 0, 0], 14, 4),
    (&[0, 0, 1, 0], 2, 4),
    (&[0, 0, 1, 0, 11, 64, 0, 64, 0, 1, 0, 1, 0], 3, 9),
    (&[0, 0, 1, 0, 11, 0, 4, 0, 4, 1, 1, 0, 0], 13, 9),
    (&[1, 0, 1, 0, 11], 9, 4),
    (&[63, 1, 1, 0, 12], 9, 4),
    (&[1, 0, 1, 0, 13], 1, 4),
];

/// The code and position of the first fault.
fn fault_of(alloc: Global, payload: &[u8]) -> Option<(u8, u32)> {
    if payload.len() > MAX_PAYLOAD_BYTES {
        return None;
    }
    match read_txn(alloc, payload) {
        Err(DecodeError::Fault(fault)) => Some((fault.code.number(), fault.at)),
        _ => None,
    }
}

/// Whether a transaction is written as the payload.
fn is_written_as(alloc: Global, txn: &Txn<'_>, payload: &[u8]) -> bool {
    match write_txn(alloc, txn) {
        Ok(bytes) => bytes.as_slice() == payload,
        Err(_) => false,
    }
}

/// Whether the payload is read and written again as it was.
fn is_written_again(alloc: Global, payload: &[u8]) -> bool {
    if payload.len() > MAX_PAYLOAD_BYTES {
        return false;
    }
    match read_txn(alloc, payload) {
        Ok(txn) => is_written_as(alloc, &txn, payload),
        Err(_) => false,
    }
}

/// The whole transaction with these bytes at a position.
fn patched(alloc: Global, at: usize, bytes: &[u8]) -> Result<Vec<u8>, AllocError> {
    let mut out = Vec::new(alloc);
    for (i, byte) in WHOLE.iter().enumerate() {
        let patch = if i < at { None } else { bytes.get(i - at) };
        out.push(*patch.unwrap_or(byte))?;
    }
    Ok(out)
}

/// The code and position of the first fault of that.
fn fault_of_patched(alloc: Global, at: usize, bytes: &[u8]) -> Option<(u8, u32)> {
    match patched(alloc, at, bytes) {
        Ok(payload) => fault_of(alloc, payload.as_slice()),
        Err(_) => None,
    }
}

/// The first and the third operation of the whole transaction.
const FIRST: Placed<'static> = Placed {
    at: 4,
    op: Op::SetList {
        epoch: 7,
        bytes: &[9, 8, 7],
    },
};

const THIRD: Placed<'static> = Placed {
    at: 17,
    op: Op::Scroll {
        sid: 5,
        x: 1_048_576,
        y: -1_048_576,
    },
};

/// Whether a transaction has the header of the whole one, and its operations at their positions.
fn has_operations(txn: &Txn<'_>) -> bool {
    let header = (txn.pipeline(), txn.frame(), txn.len()) == (0, true, 117);
    let first = txn.ops().first().copied() == Some(FIRST);
    header && first && txn.ops().get(2).copied() == Some(THIRD) && txn.ops().len() == 13
}

/// Whether the whole transaction is read so.
fn is_read(alloc: Global) -> bool {
    match read_txn(alloc, &WHOLE) {
        Ok(txn) => has_operations(&txn),
        Err(_) => false,
    }
}

#[test]
fn operations_have_their_positions(rt: HostRuntime) {
    assert!(rt; is_read(rt.alloc()));
}

#[test]
fn laws_of_transactions() {
    txn_spelling_laws();
    txn_fault_laws();
    txn_reading_laws();
}

#[test]
fn cut_in_each_field(rt: HostRuntime) {
    let mut start = 0;
    for k in 0..WHOLE.len() {
        if STARTS.contains(&(k as u32)) {
            start = k as u32;
        }
        let fault = fault_of(rt.alloc(), &WHOLE[..k]);
        assert!(rt; fault == Some((2, start)), "cut at {k}");
    }
}

#[test]
fn each_field_wrong(rt: HostRuntime) {
    for (at, bytes, code, position) in WRONG {
        let fault = fault_of_patched(rt.alloc(), at, bytes);
        assert!(rt; fault == Some((code, position)), "at {at}");
    }
}

#[test]
fn short_payloads(rt: HostRuntime) {
    for (payload, code, at) in SHORT {
        assert!(rt;
            fault_of(rt.alloc(), payload) == Some((code, at)),
            "{code} at {at}"
        );
    }
}

/// Bytes, and then one so many times.
fn filled(alloc: Global, head: &[u8], times: usize, byte: u8) -> Result<Vec<u8>, AllocError> {
    let mut out = Vec::new(alloc);
    out.extend_from_slice(head)?;
    out.resize(out.len().saturating_add(times), byte)?;
    Ok(out)
}

/// Whether these are read and written again as they were.
fn is_filled_again(alloc: Global, head: &[u8], times: usize, byte: u8) -> bool {
    match filled(alloc, head, times, byte) {
        Ok(payload) => is_written_again(alloc, payload.as_slice()),
        Err(_) => false,
    }
}

/// The first bytes of payloads at a limit, and how many of one byte follow.
const LIMITS: [(&[u8], usize, u8); 5] = [
    (&WHOLE, 0, 0),
    (&[63, 1, 0, 0], 0, 0),
    // 1,024 by 1,024 pixels a tile.
    (&[0, 0, 1, 0, 11, 0, 4, 0, 4, 0, 1, 0, 0], 0, 0),
    // 65,535 operations.
    (&[9, 0, 255, 255], 65_535, 2),
    // An image of 4,096 texels a row.
    (&[9, 0, 1, 0, 5, 1, 0, 0, 0, 0, 16, 1, 0], 16_384, 200),
];

#[test]
fn limits_pass(rt: HostRuntime) {
    for (head, times, byte) in LIMITS {
        assert!(rt;
            is_filled_again(rt.alloc(), head, times, byte),
            "{times} of {byte}"
        );
    }
}
