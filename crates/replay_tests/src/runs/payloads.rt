//! Payloads that are refused, byte by byte: their codes and positions.

use super::files::begun;
use super::replayed;
use std::test::Fail;

/// What is written for a payload, without magic and closing byte.
fn record(rt: &HostRuntime, payload: &[u8]) -> Result<Vec<u8>, Fail> {
    let size = u32::try_from(payload.len()).ok().ok_or("a short payload")?;
    let mut file = begun(rt.alloc())?;
    file.push(b'T')?;
    file.extend_from_slice(&size.to_le_bytes())?;
    file.extend_from_slice(payload)?;
    file.push(b'Z')?;
    let ran = replayed(rt, &file)?;
    let record = ran.out.get(4..).ok_or("the magic")?;
    let record = record.split_last().ok_or("the closing byte")?.1;
    Ok(record.to_vec(rt.alloc())?)
}

#[test]
fn heads(rt: HostRuntime) -> Result<(), Fail> {
    let cases: [(&[u8], u8, u8); 5] = [
        (&[64, 2], 3, 0),
        (&[63, 2], 3, 1),
        (&[0], 2, 1),
        (&[0, 1, 0], 2, 2),
        (&[0, 1, 0, 0, 0], 14, 4),
    ];
    for (payload, code, at) in cases {
        assert_eq!(rt;
            record(&rt, payload)?.as_slice(),
            [88, code, at, 0, 0, 0].as_slice(),
            "{payload:?}"
        );
    }
    Ok(())
}

#[test]
fn accepted(rt: HostRuntime) -> Result<(), Fail> {
    // A frame that another pipeline asks for, and the removal of a pipeline that has nothing.
    let frame = [70, 1, 0, 1, 0, 0, 0, 0, 0, 0];
    assert_eq!(rt; record(&rt, &[63, 1, 0, 0])?.as_slice(), frame.as_slice());
    assert_eq!(rt; record(&rt, &[0, 0, 1, 0, 2])?.as_slice(), b"A".as_slice());
    Ok(())
}

#[test]
fn tags(rt: HostRuntime) -> Result<(), Fail> {
    let cases: [(&[u8], u8, u8); 4] = [
        (&[0, 0, 1, 0], 2, 4),
        (&[0, 0, 1, 0, 0], 1, 4),
        (&[1, 0, 1, 0, 13], 1, 4),
        (&[1, 0, 1, 0, 10], 9, 4),
    ];
    for (payload, code, at) in cases {
        assert_eq!(rt;
            record(&rt, payload)?.as_slice(),
            [88, code, at, 0, 0, 0].as_slice(),
            "{payload:?}"
        );
    }
    Ok(())
}

#[test]
fn views(rt: HostRuntime) -> Result<(), Fail> {
    let cases: [(&[u8], u8, u8); 5] = [
        (&[0, 0, 1, 0, 10, 0, 0, 0, 0], 3, 5),
        (&[0, 0, 1, 0, 10, 0, 16, 1, 16], 3, 7),
        (&[0, 0, 1, 0, 10, 1, 0, 1], 2, 7),
        (&[0, 0, 1, 0, 10, 1, 0, 1, 0, 0, 0, 9], 2, 9),
        (&[0, 0, 1, 0, 10, 1, 0, 1, 0, 0, 0, 9, 8], 6, 9),
    ];
    for (payload, code, at) in cases {
        assert_eq!(rt;
            record(&rt, payload)?.as_slice(),
            [88, code, at, 0, 0, 0].as_slice(),
            "{payload:?}"
        );
    }
    Ok(())
}

#[test]
fn fields_of_operations(rt: HostRuntime) -> Result<(), Fail> {
    let cases: [(&[u8], u8, u8); 7] = [
        (&[0, 0, 1, 0, 1, 0, 0, 0, 0, 2, 0, 0, 0, 0], 2, 13),
        (&[0, 0, 1, 0, 3, 0, 0, 1, 0, 16, 0], 3, 7),
        (&[0, 0, 1, 0, 4, 2], 3, 5),
        (&[0, 0, 1, 0, 4, 1, 255, 255], 3, 6),
        (&[0, 0, 1, 0, 5, 0, 0, 0, 0, 1, 0, 0, 0], 13, 11),
        (&[0, 0, 1, 0, 8, 0, 0, 0, 0, 1, 0, 2, 0, 7], 2, 13),
        // Tiles of 1,024 by 1,024 pixels, 257 of them.
        (&[0, 0, 1, 0, 11, 0, 4, 0, 4, 1, 1, 0, 0], 13, 9),
    ];
    for (payload, code, at) in cases {
        assert_eq!(rt;
            record(&rt, payload)?.as_slice(),
            [88, code, at, 0, 0, 0].as_slice(),
            "{payload:?}"
        );
    }
    Ok(())
}
