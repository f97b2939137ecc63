//! The commands `paint` and `load`, and the files that `load` answers.

use super::files::HALF_RED;
use super::{CALM, Ends, ran_over};
use frame_replay::generate;
use std::test::Fail;

#[test]
fn a_generated_file_begins_so(rt: HostRuntime) -> Result<(), Fail> {
    let file = generate(rt.alloc(), 1, 1)?;
    let start = [
        87, 82, 84, 49, 84, 117, 3, 0, 0, 0, 1, 4, 0, 10, 0, 1, 192, 0, 255, 255, 255, 255, 11, 64,
        0, 64, 0, 0, 1, 0, 0, 5, 1, 0, 0, 0, 4, 0, 4, 0, 214, 214, 214, 255,
    ];
    assert!(rt; file.starts_with(&start));
    assert_eq!(rt; file.last().copied(), Some(b'Z'));
    Ok(())
}

/// How many lines a text has.
fn lines(text: &[u8]) -> usize {
    text.iter().filter(|byte| **byte == b'\n').count()
}

#[test]
fn a_load_says_the_same_twice_and_reads_nothing(rt: HostRuntime) -> Result<(), Fail> {
    let first = ran_over(&rt, &["load", "1", "5"], b"WRT1Z", &CALM)?;
    let again = ran_over(&rt, &["load", "0000000001", "05"], b"", &CALM)?;
    let start = b"transactions 5\nframes 5\nrefused 0\nsum ";
    assert_eq!(rt; (first.status, first.left, first.note.len()), (0, 5, 0));
    assert!(rt; first.out.starts_with(start));
    assert_eq!(rt; first.out.as_slice(), again.out.as_slice());
    assert_eq!(rt; lines(&first.out), 5);
    Ok(())
}

#[test]
fn a_load_into_a_failing_sink(rt: HostRuntime) -> Result<(), Fail> {
    let ends = Ends {
        most: 10,
        sink_fails: &[3],
        ..CALM
    };
    let ran = ran_over(&rt, &["load", "3", "1"], b"", &ends)?;
    assert_eq!(rt; ran.status, 4);
    assert_eq!(rt; ran.out.as_slice(), b"transactions 1\nframe".as_slice());
    assert_eq!(rt; ran.note.as_slice(), b"wrreplay: write failed\n".as_slice());
    Ok(())
}

#[test]
fn paint_answers_as_replay_does(rt: HostRuntime) -> Result<(), Fail> {
    let roomy = Ends {
        room: 1_000_000,
        ..CALM
    };
    let generated = generate(rt.alloc(), 7, 4)?;
    let inputs: [&[u8]; 4] = [&HALF_RED, &generated, b"WRT1T", b"WRT9"];
    for input in inputs {
        let replayed = ran_over(&rt, &["replay"], input, &roomy)?;
        let painted = ran_over(&rt, &["paint"], input, &roomy)?;
        assert_eq!(rt; painted.status, replayed.status);
        assert_eq!(rt; painted.out.as_slice(), replayed.out.as_slice());
    }
    Ok(())
}
