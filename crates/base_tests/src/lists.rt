use display_list::*;
use std::alloc::{AllocError, Global};
use wr_io::DecodeError;

/// A list with every form: a reference frame, a scroll frame, two clips, two chains, and each item.
const WHOLE: [u8; 326] = [
    1, 0, 0, 5, 0, 0, 0, 255, 255, 255, 255, 7, 0, // 0: RefFrame
    2, 1, 0, 3, 0, 64, 0, 0, 0, 64, 0, 0, 0, 64, 0, 0, 0, 0, 1, 0, 0, // 13: ScrollFrame
    3, 2, 0, 0, 0, 0, 0, 0, 0, 0, 0, 8, 0, 0, 0, 8, 0, 0, 0, // 34: RectClip
    4, 0, 0, 1, 0, 0, 0, 0, 0, 0, 0, 0, 6, 0, 0, 0, 4, 0, 0, 0, // 53: RoundClip
    3, 0, 1, 0, 3, 0, 0, 0, 0, 0, 0, 0, 0, 0, 3, 0, // 73: its radii
    5, 255, 255, 2, 0, 0, 1, 0, // 89: Chain
    5, 0, 0, 1, 1, 0, // 97: Chain
    6, 2, 0, 1, 0, 0, 0, 0, 0, 0, 0, 0, 0, 4, 0, 0, 0, 4, 0, 0, 0, 0, 0, 128, 128, // 103: Solid
    10, 0, 0, 255, 255, 200, 255, 255, 8, 1, // 128: PushContext
    7, 0, 0, 255, 255, 0, 0, 0, 0, 0, 0, 0, 0, 4, 0, 0, 0, 4, 0, 0, 0, // 138: Image
    9, 0, 0, 0, 1, 0, 2, 0, // 159: its key and texel
    8, 0, 0, 255, 255, 0, 0, 0, 0, 0, 0, 0, 0, 4, 0, 0, 0, 4, 0, 0, 0, // 167: Border
    2, 0, 1, 0, 1, 0, 1, 0, // 188: its widths
    1, 2, 3, 4, 1, 2, 3, 4, 1, 2, 3, 4, 1, 2, 3, 4, // 196: its colours
    2, 0, 2, 0, 2, 0, 2, 0, 2, 0, 2, 0, 2, 0, 2, 0, // 212: its radii
    9, 0, 0, 255, 255, 0, 0, 0, 0, 0, 0, 0, 0, 4, 0, 0, 0, 4, 0, 0, 0, // 228: Text
    1, 0, 9, 9, 9, 9, 2, 0, // 249: its font, colour and count
    5, 0, 0, 0, 0, 0, 0, 0, 0, 0, 6, 0, 1, 0, 0, 0, 0, 0, 0, 0, // 257: its glyphs
    11, // 277: PopContext
    12, 0, 0, 255, 255, 0, 0, 0, 0, 0, 0, 0, 0, 4, 0, 0, 0, 4, 0, 0, 0, 1, // 278: Iframe
    13, 0, 0, 255, 255, 0, 0, 0, 0, 0, 0, 0, 0, 4, 0, 0, 0, 4, 0, 0, 0, 7, 0, 0, 0, // 300: HitArea
    0, // 325: End
];

/// Where each field of it begins, its tags included.
const STARTS: [u32; 124] = [
    0, 1, 3, 7, 11, 13, 14, 16, 18, 22, 26, 30, 34, 35, 37, 41, 45, 49, 53, 54, 56, 57, 61, 65, 69,
    73, 75, 77, 79, 81, 83, 85, 87, 89, 90, 92, 93, 95, 97, 98, 100, 101, 103, 104, 106, 108, 112,
    116, 120, 124, 128, 129, 131, 133, 134, 136, 137, 138, 139, 141, 143, 147, 151, 155, 159, 163,
    165, 167, 168, 170, 172, 176, 180, 184, 188, 190, 192, 194, 196, 200, 204, 208, 212, 214, 216,
    218, 220, 222, 224, 226, 228, 229, 231, 233, 237, 241, 245, 249, 251, 255, 257, 259, 263, 267,
    269, 273, 277, 278, 279, 281, 283, 287, 291, 295, 299, 300, 301, 303, 305, 309, 313, 317, 321,
    325,
];

/// Bytes that are put into it at a position, and the code and position of the fault that this makes.
const WRONG: [(usize, &[u8], u8, u32); 132] = [
    (0, &[14], 1, 0),
    (53, &[1], 1, 53),
    (53, &[2], 1, 53),
    (97, &[3], 1, 97),
    (97, &[4], 1, 97),
    (128, &[5], 1, 128),
    (325, &[1], 1, 325),
    (325, &[99], 1, 325),
    (1, &[1], 4, 1),
    (3, &[1, 0, 16, 0], 3, 3),
    (7, &[255, 255, 239, 255], 3, 7),
    (14, &[2], 4, 14),
    (18, &[1, 0, 16, 0], 3, 18),
    (22, &[1, 0, 16, 0], 3, 22),
    (26, &[1, 0, 16, 0], 3, 26),
    (30, &[1, 0, 16, 0], 3, 30),
    (35, &[3], 4, 35),
    (37, &[255, 255, 239, 255], 3, 37),
    (41, &[1, 0, 16, 0], 3, 41),
    (45, &[1, 0, 16, 0], 3, 45),
    (45, &[255, 255, 255, 255], 3, 45),
    (49, &[1, 0, 16, 0], 3, 49),
    (49, &[255, 255, 255, 255], 3, 49),
    (54, &[3], 4, 54),
    (56, &[2], 3, 56),
    (57, &[255, 255, 239, 255], 3, 57),
    (61, &[1, 0, 16, 0], 3, 61),
    (65, &[1, 0, 16, 0], 3, 65),
    (65, &[255, 255, 255, 255], 3, 65),
    (69, &[1, 0, 16, 0], 3, 69),
    (69, &[255, 255, 255, 255], 3, 69),
    (73, &[1, 16], 12, 73),
    (75, &[1, 16], 12, 75),
    (77, &[1, 16], 12, 77),
    (79, &[1, 16], 12, 79),
    (81, &[1, 16], 12, 81),
    (83, &[1, 16], 12, 83),
    (85, &[1, 16], 12, 85),
    (87, &[1, 16], 12, 87),
    (77, &[4], 12, 73),
    (81, &[7], 12, 73),
    (87, &[4], 12, 73),
    (79, &[5], 12, 73),
    (90, &[0, 0], 4, 90),
    (93, &[2], 4, 93),
    (95, &[2], 4, 95),
    (98, &[1], 4, 98),
    (101, &[2], 4, 101),
    (104, &[3], 4, 104),
    (106, &[2, 0], 4, 106),
    (108, &[255, 255, 239, 255], 3, 108),
    (112, &[1, 0, 16, 0], 3, 112),
    (116, &[1, 0, 16, 0], 3, 116),
    (116, &[255, 255, 255, 255], 3, 116),
    (120, &[1, 0, 16, 0], 3, 120),
    (120, &[255, 255, 255, 255], 3, 120),
    (124, &[129], 6, 124),
    (125, &[129], 6, 124),
    (126, &[129], 6, 124),
    (129, &[3], 4, 129),
    (131, &[2, 0], 4, 131),
    (136, &[9], 7, 136),
    (137, &[2], 3, 137),
    (139, &[3], 4, 139),
    (141, &[2, 0], 4, 141),
    (143, &[255, 255, 239, 255], 3, 143),
    (147, &[1, 0, 16, 0], 3, 147),
    (151, &[1, 0, 16, 0], 3, 151),
    (151, &[255, 255, 255, 255], 3, 151),
    (155, &[1, 0, 16, 0], 3, 155),
    (155, &[255, 255, 255, 255], 3, 155),
    (168, &[3], 4, 168),
    (170, &[2, 0], 4, 170),
    (172, &[255, 255, 239, 255], 3, 172),
    (176, &[1, 0, 16, 0], 3, 176),
    (180, &[1, 0, 16, 0], 3, 180),
    (180, &[255, 255, 255, 255], 3, 180),
    (184, &[1, 0, 16, 0], 3, 184),
    (184, &[255, 255, 255, 255], 3, 184),
    (188, &[1, 16], 12, 188),
    (190, &[1, 16], 12, 190),
    (192, &[1, 16], 12, 192),
    (194, &[1, 16], 12, 194),
    (194, &[4], 12, 188),
    (192, &[3], 12, 188),
    (196, &[5], 6, 196),
    (200, &[5], 6, 200),
    (204, &[5], 6, 204),
    (208, &[5], 6, 208),
    (212, &[1, 16], 12, 212),
    (214, &[1, 16], 12, 214),
    (216, &[1, 16], 12, 216),
    (218, &[1, 16], 12, 218),
    (220, &[1, 16], 12, 220),
    (222, &[1, 16], 12, 222),
    (224, &[1, 16], 12, 224),
    (226, &[1, 16], 12, 226),
    (216, &[3], 12, 212),
    (220, &[3], 12, 212),
    (214, &[3], 12, 212),
    (218, &[3], 12, 212),
    (229, &[3], 4, 229),
    (231, &[2, 0], 4, 231),
    (233, &[255, 255, 239, 255], 3, 233),
    (237, &[1, 0, 16, 0], 3, 237),
    (241, &[1, 0, 16, 0], 3, 241),
    (241, &[255, 255, 255, 255], 3, 241),
    (245, &[1, 0, 16, 0], 3, 245),
    (245, &[255, 255, 255, 255], 3, 245),
    (251, &[10], 6, 251),
    (259, &[1, 0, 16, 0], 3, 259),
    (263, &[1, 0, 16, 0], 3, 263),
    (269, &[1, 0, 16, 0], 3, 269),
    (273, &[1, 0, 16, 0], 3, 273),
    (279, &[3], 4, 279),
    (281, &[2, 0], 4, 281),
    (283, &[255, 255, 239, 255], 3, 283),
    (287, &[1, 0, 16, 0], 3, 287),
    (291, &[1, 0, 16, 0], 3, 291),
    (291, &[255, 255, 255, 255], 3, 291),
    (295, &[1, 0, 16, 0], 3, 295),
    (295, &[255, 255, 255, 255], 3, 295),
    (299, &[64], 3, 299),
    (299, &[0], 8, 299),
    (301, &[3], 4, 301),
    (303, &[2, 0], 4, 303),
    (305, &[255, 255, 239, 255], 3, 305),
    (309, &[1, 0, 16, 0], 3, 309),
    (313, &[1, 0, 16, 0], 3, 313),
    (313, &[255, 255, 255, 255], 3, 313),
    (317, &[1, 0, 16, 0], 3, 317),
    (317, &[255, 255, 255, 255], 3, 317),
];

/// In place of a fault's code and position, where the bytes are a list.
const LIST: (u8, u32) = (0, 0);

/// How bytes are read: as a list, or with the code and position of the first fault. None where memory runs out.
fn outcome_of(alloc: Global, bytes: &[u8], own: u8) -> Option<(u8, u32)> {
    if own > 63 || bytes.len() > 6_300_000 {
        return None;
    }
    match decode(alloc, bytes, own) {
        Ok(_) => Some(LIST),
        Err(DecodeError::Fault(fault)) => Some((fault.code.number(), fault.at)),
        Err(DecodeError::NoMemory) => None,
    }
}

/// How the bytes of pipeline 0 are read that were made.
fn outcome_of_made(alloc: Global, made: Result<Vec<u8>, AllocError>) -> Option<(u8, u32)> {
    match made {
        Ok(bytes) => outcome_of(alloc, bytes.as_slice(), 0),
        Err(_) => None,
    }
}

/// The whole list with these bytes at a position.
fn patched(alloc: Global, at: usize, bytes: &[u8]) -> Result<Vec<u8>, AllocError> {
    let mut out = Vec::new(alloc);
    for (i, byte) in WHOLE.iter().enumerate() {
        let patch = if i < at { None } else { bytes.get(i - at) };
        out.push(*patch.unwrap_or(byte))?;
    }
    Ok(out)
}

/// Whether a list has two nodes, clips and chains, and four items at its top.
fn has_every_form(list: &List) -> bool {
    let counts = list.nodes().len() == 2 && list.clips().len() == 2 && list.chains().len() == 2;
    counts && list.items().len() == 4
}

/// Whether a list is written as the whole one.
fn is_written_whole(alloc: Global, list: &List) -> bool {
    match encode(alloc, list) {
        Ok(bytes) => bytes.as_slice() == WHOLE.as_slice(),
        Err(_) => false,
    }
}

/// Whether the whole list is read, and written again as it was.
fn is_read_and_written(alloc: Global) -> bool {
    match decode(alloc, &WHOLE, 0) {
        Ok(list) => has_every_form(&list) && is_written_whole(alloc, &list),
        Err(_) => false,
    }
}

#[test]
fn every_form_twice(rt: HostRuntime) {
    assert!(rt; is_read_and_written(rt.alloc()));
}

#[test]
fn laws_of_lists() {
    spelling_laws();
    fault_laws();
    reading_laws();
    tree_laws();
}

#[test]
fn cut_in_each_field(rt: HostRuntime) {
    let mut start = 0;
    for k in 0..WHOLE.len() {
        if STARTS.contains(&(k as u32)) {
            start = k as u32;
        }
        let outcome = outcome_of(rt.alloc(), &WHOLE[..k], 0);
        assert!(rt; outcome == Some((2, start)), "cut at {k}");
    }
}

#[test]
fn each_field_wrong(rt: HostRuntime) {
    let alloc = rt.alloc();
    for (at, bytes, code, position) in WRONG {
        let outcome = outcome_of_made(alloc, patched(alloc, at, bytes));
        assert!(rt; outcome == Some((code, position)), "at {at}");
    }
}

/// Short lists of pipeline 0, and the code and position of the fault of each: 0 and 0 where there is none.
const SHORT: [(&[u8], u8, u32); 12] = [
    (&[], 2, 0),
    (&[0, 0], 14, 1),
    (&[11, 0], 5, 0),
    (&[99], 1, 0),
    (&[6], 2, 1),
    (&[6, 1, 0], 4, 1),
    (&[5, 255, 255, 1, 0, 0], 4, 4),
    (&[10, 0, 0, 255, 255, 255, 255, 255, 0, 0, 0], 5, 10),
    (
        &[3, 0, 0, 0, 0, 0, 0, 0, 0, 0, 0, 0, 0, 0, 0, 0, 0, 0, 0, 1],
        1,
        19,
    ),
    (
        &[
            4, 0, 0, 0, 0, 0, 0, 0, 0, 0, 0, 0, 4, 0, 0, 0, 4, 0, 0, 0, 3, 0, 3, 0, 2, 0, 0, 0, 0,
            0, 0, 0, 0, 0, 0, 0, 0,
        ],
        12,
        20,
    ),
    // Its right edge is at 1,048,576, and then one pixel beyond.
    (
        &[
            6, 0, 0, 255, 255, 0, 0, 0, 0, 0, 0, 0, 0, 0, 0, 16, 0, 1, 0, 0, 0, 0, 0, 0, 0, 0,
        ],
        0,
        0,
    ),
    (
        &[
            6, 0, 0, 255, 255, 0, 0, 0, 0, 0, 0, 0, 0, 1, 0, 16, 0, 1, 0, 0, 0, 0, 0, 0, 0, 0,
        ],
        3,
        13,
    ),
];

#[test]
fn short_lists(rt: HostRuntime) {
    for (bytes, code, at) in SHORT {
        assert!(rt;
            outcome_of(rt.alloc(), bytes, 0) == Some((code, at)),
            "{code} at {at}"
        );
    }
    assert!(rt; outcome_of(rt.alloc(), &WHOLE, 1) == Some((8, 299)));
}

/// A part so many times, as part of other bytes.
fn add(out: &mut Vec<u8>, times: u32, part: &[u8]) -> Result<(), AllocError> {
    for _ in 0..times {
        out.extend_from_slice(part)?;
    }
    Ok(())
}

/// Parts one after the other, each so many times.
fn joined(alloc: Global, parts: &[(u32, &[u8])]) -> Result<Vec<u8>, AllocError> {
    let mut out = Vec::new(alloc);
    for (times, part) in parts {
        add(&mut out, *times, *part)?;
    }
    Ok(out)
}

/// A node of the root, a clip, a chain without clips, and the start of a context.
const NODE: &[u8] = &[1, 0, 0, 0, 0, 0, 0, 0, 0, 0, 0, 255, 255];

const CLIP: &[u8] = &[3, 0, 0, 0, 0, 0, 0, 0, 0, 0, 0, 0, 0, 0, 0, 0, 0, 0, 0];

const CHAIN: &[u8] = &[5, 255, 255, 0];

const PUSH: &[u8] = &[10, 0, 0, 255, 255, 255, 255, 255, 0, 0];

/// The start of a chain of 254 clips.
const LONG_CHAIN: &[u8] = &[5, 255, 255, 254];

/// A scroll frame, always of number 7.
const FRAME: &[u8] = &[
    2, 0, 0, 7, 0, 0, 0, 0, 0, 0, 0, 0, 0, 0, 0, 0, 0, 0, 0, 0, 0,
];

const SOLID: &[u8] = &[
    6, 0, 0, 255, 255, 0, 0, 0, 0, 0, 0, 0, 0, 4, 0, 0, 0, 4, 0, 0, 0, 1, 2, 3, 4,
];

/// The parts of lists, and the code and position of the fault of each: 0 and 0 where there is none.
const JOINED: [(&[(u32, &[u8])], u8, u32); 12] = [
    // Contexts nest 64 deep.
    (&[(64, PUSH), (64, &[11]), (1, &[0])], 0, 0),
    (&[(65, PUSH)], 13, 640),
    // There are 4,096 nodes, clips and chains.
    (&[(4096, NODE), (1, &[0])], 0, 0),
    (&[(4097, NODE)], 13, 53_248),
    (&[(4096, CLIP), (1, &[0])], 0, 0),
    (&[(4097, CLIP)], 13, 77_824),
    (&[(4096, CHAIN), (1, &[0])], 0, 0),
    (&[(4097, CHAIN)], 13, 16_384),
    // Chains have 255 clips, those of their parents included.
    (
        &[
            (1, CLIP),
            (1, LONG_CHAIN),
            (508, &[0]),
            (1, &[5, 0, 0, 1, 0, 0, 0]),
        ],
        0,
        0,
    ),
    (
        &[(1, CLIP), (1, LONG_CHAIN), (508, &[0]), (1, &[5, 0, 0, 2])],
        13,
        534,
    ),
    // A scroll number stands once.
    (&[(2, FRAME), (1, &[0])], 4, 24),
    // More than 5 MiB.
    (&[(209_716, SOLID), (1, &[0])], 0, 0),
];

#[test]
fn lists_at_their_limits(rt: HostRuntime) {
    let alloc = rt.alloc();
    for (parts, code, at) in JOINED {
        let outcome = outcome_of_made(alloc, joined(alloc, parts));
        assert!(rt; outcome == Some((code, at)), "{code} at {at}");
    }
}

/// So many nodes, each within the one before, and then other bytes.
fn nested_nodes(alloc: Global, nodes: u8, end: &[u8]) -> Result<Vec<u8>, AllocError> {
    let mut out = Vec::new(alloc);
    for parent in 0..nodes {
        out.extend_from_slice(&[1, parent, 0, 0, 0, 0, 0, 0, 0, 0, 0, 255, 255])?;
    }
    out.extend_from_slice(end)?;
    Ok(out)
}

#[test]
fn nodes_stand_64_deep(rt: HostRuntime) {
    let alloc = rt.alloc();
    assert!(rt; outcome_of_made(alloc, nested_nodes(alloc, 64, &[0])) == Some(LIST));
    assert!(rt; outcome_of_made(alloc, nested_nodes(alloc, 65, &[])) == Some((13, 833)));
}

/// Scroll frames of the numbers from 0 to 4,095.
fn numbered_frames(alloc: Global) -> Result<Vec<u8>, AllocError> {
    let mut out = Vec::new(alloc);
    for sid in 0u16..4096 {
        let sid = sid.to_le_bytes();
        out.extend_from_slice(&[2, 0, 0, sid[0], sid[1]])?;
        out.extend_from_slice(&[0; 16])?;
    }
    out.extend_from_slice(&[0])?;
    Ok(out)
}

#[test]
fn scroll_numbers_of_4096_frames(rt: HostRuntime) {
    assert!(rt; outcome_of_made(rt.alloc(), numbered_frames(rt.alloc())) == Some(LIST));
}
