ghost use Rattle.std.specs.Prelude.{◌<◌};

use std::alloc::{AllocError, Global};
use wr_io::*;

/// A source of these bytes that gives so many a call, at least 1, and fails at these calls.
fn source(
    alloc: Global,
    bytes: &[u8],
    most: usize,
    fail_at: &[u64],
) -> Result<MemSource, AllocError>
    requires { 0 < most }
{
    let bytes = bytes.to_vec(alloc)?;
    Ok(MemSource::new(bytes, most, fail_at.to_vec(alloc)?))
}

/// A sink with room for so many bytes that takes so many a call, at least 1, and fails at these
/// calls.
fn sink(alloc: Global, room: &[u8], most: usize, fail_at: &[u64]) -> Result<MemSink, AllocError>
    requires { 0 < most }
{
    let room = room.to_vec(alloc)?;
    Ok(MemSink::new(room, most, fail_at.to_vec(alloc)?))
}

/// What a check answers on a source. False where there was no memory for it.
fn on_a_source<F: FnOnce(&mut MemSource) -> bool>(
    source: Result<MemSource, AllocError>,
    check: F,
) -> bool
    requires { F.IsAlwaysCallable check }
{
    match source {
        Ok(mut source) => check(&mut source),
        Err(_) => false,
    }
}

/// What a check answers on a sink. False where there was no memory for it.
fn on_a_sink<F: FnOnce(&mut MemSink) -> bool>(sink: Result<MemSink, AllocError>, check: F) -> bool
    requires { F.IsAlwaysCallable check }
{
    match sink {
        Ok(mut sink) => check(&mut sink),
        Err(_) => false,
    }
}

/// Whether three bytes are read, and the rest before a call fails.
fn reads_three(source: &mut MemSource) -> bool {
    let mut out = [0u8; 3];
    let three = read_exact(source, &mut out) == Ok(3) && out == [1, 2, 3];
    let left = source.left() == [4, 5].as_slice();
    three && left && read_exact(source, &mut out) == Err(Failed) && source.left().is_empty()
}

#[test]
fn reads_in_small_calls_until_one_fails(rt: HostRuntime) {
    assert!(rt; on_a_source(source(rt.alloc(), &[1, 2, 3, 4, 5], 2, &[4]), reads_three));
}

/// Whether two of four bytes are read, and then none.
fn reads_less(source: &mut MemSource) -> bool {
    let mut out = [0u8; 4];
    read_exact(source, &mut out) == Ok(2) && read_exact(source, &mut out) == Ok(0)
}

#[test]
fn reads_less_at_the_end_alone(rt: HostRuntime) {
    assert!(rt; on_a_source(source(rt.alloc(), &[7, 8], 1, &[]), reads_less));
}

/// Whether a failed call is not made again.
fn fails_once(source: &mut MemSource) -> bool {
    let mut out = [0u8; 4];
    read_exact(source, &mut out) == Err(Failed) && source.left() == [3, 4, 5].as_slice()
}

#[test]
fn a_failed_read_is_not_made_again(rt: HostRuntime) {
    assert!(rt; on_a_source(source(rt.alloc(), &[1, 2, 3, 4, 5], 2, &[2]), fails_once));
}

/// Whether five of six bytes are taken, and after them an empty piece alone.
fn takes_five(sink: &mut MemSink) -> bool {
    let first = write_whole(sink, &[1, 2, 3]) == Ok(());
    let second = write_whole(sink, &[4, 5, 6]) == Err(Failed);
    let five = sink.written() == [1, 2, 3, 4, 5].as_slice();
    first && second && five && write_whole(sink, &[]) == Ok(())
}

#[test]
fn writes_until_the_room_is_full(rt: HostRuntime) {
    assert!(rt; on_a_sink(sink(rt.alloc(), &[0; 5], 2, &[]), takes_five));
}

/// Whether two bytes are taken before a call fails, and calls go on after it.
fn fails_at_the_third(sink: &mut MemSink) -> bool {
    let failed = write_whole(sink, &[1, 2, 3]) == Err(Failed);
    failed && sink.written() == [1, 2].as_slice() && write_whole(sink, &[4]) == Ok(())
}

#[test]
fn fails_at_the_listed_call(rt: HostRuntime) {
    assert!(rt; on_a_sink(sink(rt.alloc(), &[0; 9], 1, &[3]), fails_at_the_third));
}

/// Whether two bytes are read, and then the last one.
fn reads_from_a_reader() -> bool {
    let mut source = StdSource::new([1u8, 2, 3].as_slice());
    let mut out = [0u8; 2];
    let two = read_exact(&mut source, &mut out) == Ok(2) && out == [1, 2];
    two && read_exact(&mut source, &mut out) == Ok(1)
}

#[test]
fn adapts_a_standard_reader(rt: HostRuntime) {
    assert!(rt; reads_from_a_reader());
}

/// Whether two of four bytes have room.
fn writes_to_a_writer() -> bool {
    let mut buffer = [0u8; 3];
    let mut sink = StdSink::new(buffer.as_mut_slice());
    let two = write_whole(&mut sink, &[1, 2]) == Ok(());
    two && write_whole(&mut sink, &[3, 4]) == Err(Failed)
}

#[test]
fn adapts_a_standard_writer(rt: HostRuntime) {
    assert!(rt; writes_to_a_writer());
}

/// Whether a sink without room takes an empty piece alone.
fn takes_nothing<K: Sink>(sink: &mut K) -> bool {
    sink.write(&[]) == Ok(0) && sink.write(&[1]) == Err(Failed)
}

/// Whether a standard writer without room does.
fn writer_takes_nothing() -> bool {
    let mut none = [0u8; 0];
    takes_nothing(&mut StdSink::new(none.as_mut_slice()))
}

#[test]
fn an_empty_piece_is_no_failure(rt: HostRuntime) {
    assert!(rt; writer_takes_nothing());
    assert!(rt; on_a_sink(sink(rt.alloc(), &[], 1, &[]), takes_nothing));
}

/// Whether numbers are read from the lowest byte on, and one that isn't whole is not.
fn reads_numbers() -> bool {
    let mut cursor = Cursor::new(&[1, 2, 1, 255, 255, 255, 255, 4, 0, 0, 0, 9, 8]);
    let small = cursor.u8() == Some(1) && cursor.u16() == Some(258);
    let large = cursor.i32() == Some(-1) && cursor.u32() == Some(4) && cursor.u32().is_none();
    let rest = cursor.at() == 11 && cursor.bytes(2) == Some([9, 8].as_slice());
    small && large && rest && cursor.u8().is_none()
}

#[test]
fn reads_numbers_from_the_lowest_byte(rt: HostRuntime) {
    assert!(rt; reads_numbers());
}

const FAULT: Fault = Fault {
    code: Code::BadMode,
    at: 12,
};

/// Whether a fault is told by its words and its position.
fn says_its_words(alloc: Global) -> bool {
    match format!(in alloc; "{}", FAULT) {
        Ok(text) => text.as_str() == "an unknown blend mode, at byte 12",
        Err(_) => false,
    }
}

#[test]
fn faults_have_numbers_and_words(rt: HostRuntime) {
    assert!(rt; Code::BadTag.number() == 1 && Code::TooManyPixels.number() == 17);
    assert!(rt; says_its_words(rt.alloc()));
}
