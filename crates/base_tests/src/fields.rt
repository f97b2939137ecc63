use blend_rules::Px;
use field_forms::*;
use std::alloc::{AllocError, Global};
use wr_io::{Code, DecodeError};

const COLOUR: Px = Px {
    b: 2,
    g: 3,
    r: 4,
    a: 4,
};

/// Whether the numbers and the flag come first.
fn reads_numbers(reader: &mut Reader<'_>) -> Result<bool, DecodeError> {
    let numbers = (reader.byte()?, reader.u16()?, reader.i32()?) == (7, 258, -1);
    Ok(reader.flag()? && numbers)
}

/// Whether a reference, a colour, no reference and two bytes come then, and one byte is left.
fn reads_the_rest(reader: &mut Reader<'_>) -> Result<bool, DecodeError> {
    let number = reader.reference(2)? == 1;
    let colour = reader.colour()? == COLOUR;
    let none = reader.optional_reference(9)?.is_none();
    let bytes = reader.bytes(2)? == [9, 9].as_slice();
    let trailing = reader.finish() == Err(fault(Code::Trailing, 18));
    Ok(number && colour && none && bytes && trailing)
}

/// Whether fields are read one after the other.
fn reads_in_a_row() -> Result<bool, DecodeError> {
    let bytes = [
        7, 2, 1, 255, 255, 255, 255, 1, 1, 0, 2, 3, 4, 4, 255, 255, 9, 9, 9,
    ];
    let mut reader = Reader::new(&bytes);
    Ok(reads_numbers(&mut reader)? && reads_the_rest(&mut reader)?)
}

#[test]
fn reads_fields_in_a_row(rt: HostRuntime) {
    assert!(rt; reads_in_a_row() == Ok(true));
}

/// Whether a coordinate that is too large is refused, and a colour that is not premultiplied.
fn refuses_values() -> bool {
    let far = [0, 0, 16, 0, 1, 0, 16, 0, 5, 6, 6, 5];
    let mut reader = Reader::new(&far);
    let last = reader.coordinate() == Ok(MAX_COORDINATE);
    let beyond = reader.coordinate() == Err(fault(Code::BadNumber, 4));
    last && beyond && reader.colour() == Err(fault(Code::BadColour, 8))
}

/// Whether a flag of 2 is refused, and a number that isn't whole.
fn refuses_the_short() -> bool {
    let mut reader = Reader::new(&[2, 3]);
    let flag = reader.flag() == Err(fault(Code::BadNumber, 0));
    flag && reader.u16() == Err(fault(Code::Short, 1))
}

#[test]
fn refuses_at_the_first_byte_of_a_field(rt: HostRuntime) {
    assert!(rt; refuses_values() && refuses_the_short());
}

#[test]
fn moves_faults(rt: HostRuntime) {
    let far = moved(fault(Code::BadTag, 3), 10, 4);
    assert!(rt; far == fault(Code::BadTag, 13));
    assert!(rt; moved(DecodeError::NoMemory, 10, 4) == DecodeError::NoMemory);
}

/// Writes one field of each form.
fn put_fields(out: &mut Vec<u8>) -> Result<(), AllocError> {
    put_byte(out, 1)?;
    put_u16(out, 515)?;
    put_u32(out, 1)?;
    put_i32(out, -2)?;
    put_optional(out, None)?;
    put_flag(out, true)?;
    put_bytes(out, &[8, 9])?;
    put_colour(out, Px::CLEAR)
}

/// Whether these are the bytes that are read as such.
fn writes_fields(alloc: Global) -> Result<bool, AllocError> {
    let mut out = Vec::new(alloc);
    put_fields(&mut out)?;
    let want = [
        1, 3, 2, 1, 0, 0, 0, 254, 255, 255, 255, 255, 255, 1, 8, 9, 0, 0, 0, 0,
    ];
    Ok(out.as_slice() == want.as_slice())
}

#[test]
fn writes_what_is_read(rt: HostRuntime) {
    assert!(rt; writes_fields(rt.alloc()) == Ok(true));
}
