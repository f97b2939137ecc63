use clip_masks::{
    Clip, Rounded, chain_laws, clip_laws, clip_order_laws, cover_row, cut, shift_clips,
};
use std::cmp::Ordering;
use wr_geom::{Point, Radii, Rect, Widths};

fn all_round(across: u16, down: u16) -> Radii {
    let corner = (across, down);
    Radii {
        tl: corner,
        tr: corner,
        br: corner,
        bl: corner,
    }
}

/// Whether a row is what `cover` gives at each of its pixels.
fn row_agrees(clip: &Clip, y: i32) -> bool {
    let mut row = [0; 44];
    clip.mask_row(y, -2, &mut row);
    for k in 0..44 {
        if row[k] != clip.cover(k as i32 - 2, y) {
            return false;
        }
    }
    true
}

/// Whether each row around a clip does.
fn rows_agree(shape: Rounded, out: bool) -> bool {
    let clip = Clip { shape, out };
    for y in -2..32 {
        if !row_agrees(&clip, y) {
            return false;
        }
    }
    true
}

/// Whether each row around a shape does, as a clip of either mode.
fn both_agree(shape: Rounded) -> bool {
    rows_agree(shape, false) && rows_agree(shape, true)
}

/// Six pixels of a clip, from -1 on.
fn row_of(clip: &Clip, y: i32) -> [u8; 6] {
    let mut row = [9; 6];
    clip.mask_row(y, -1, &mut row);
    row
}

/// Whether the rows of a circle of radius 2 are these.
fn is_circle() -> Option<bool> {
    let shape = Rounded::new(Rect::new(0, 0, 4, 4)?, all_round(2, 2))?;
    let circle = Clip { shape, out: false };
    let samples = shape.samples(0, 0) == 6 && shape.samples(1, 0) == 15;
    let first = row_of(&circle, 0) == [0, 96, 239, 239, 96, 0];
    let second = row_of(&circle, 1) == [0, 239, 255, 255, 239, 0];
    Some(samples && first && second && row_of(&circle, 4) == [0; 6])
}

#[test]
fn covers_a_circle(rt: HostRuntime) {
    assert!(rt; is_circle() == Some(true));
}

/// What two clips, the outermost first, leave of the pixel at (0, 0).
fn folded(first: Clip, second: Clip) -> u8 {
    let mut pixel = [0];
    cover_row(&[first, second], 255, 0, 0, &mut pixel);
    pixel[0]
}

/// Whether 8 of 16 samples are folded from the outermost clip on.
fn folds_in_order() -> Option<bool> {
    let radii = Radii {
        tl: (3, 1),
        ..Radii::SQUARE
    };
    let shape = Rounded::new(Rect::new(0, 0, 6, 2)?, radii)?;
    let inwards = Clip { shape, out: false };
    let outwards = Clip { shape, out: true };
    let covers = inwards.cover(0, 0) == 128 && outwards.cover(0, 0) == 127;
    let in_out = folded(inwards, outwards) == 64;
    Some(shape.samples(0, 0) == 8 && covers && in_out && folded(outwards, inwards) == 63)
}

#[test]
fn folds_from_the_outermost(rt: HostRuntime) {
    assert!(rt; folds_in_order() == Some(true));
}

/// Edges of rectangles, and the radii of all their corners.
const SHAPES: [([i32; 4], u16, u16); 5] = [
    ([0, 0, 8, 7], 0, 0),
    ([0, 0, 8, 7], 4, 3),
    ([0, 0, 8, 7], 0, 3),
    ([0, 0, 8, 7], 1, 2),
    ([3, 3, 3, 5], 0, 1),
];

fn shape_agrees(edges: [i32; 4], across: u16, down: u16) -> Option<bool> {
    let rect = Rect::new(edges[0], edges[1], edges[2], edges[3])?;
    Some(both_agree(Rounded::new(rect, all_round(across, down))?))
}

#[test]
fn rows_are_covers(rt: HostRuntime) {
    for (edges, across, down) in SHAPES {
        assert!(rt;
            shape_agrees(edges, across, down) == Some(true),
            "{across} {down}"
        );
    }
}

/// Whether a shape has these edges, and these radii at its corners but the last.
fn has_shape(shape: &Rounded, rect: Rect, corners: [(u16, u16); 3]) -> bool {
    let radii = shape.radii();
    shape.rect() == rect && [radii.tl, radii.tr, radii.br] == corners
}

/// Whether a shape shrinks to corners that overlap.
fn shrinks() -> Option<bool> {
    let radii = Radii {
        tl: (6, 5),
        tr: (2, 0),
        br: (6, 5),
        bl: (2, 2),
    };
    let outer = Rounded::new(Rect::new(0, 0, 8, 7)?, radii)?;
    let inner = outer.inset(Widths {
        top: 1,
        right: 1,
        bottom: 1,
        left: 2,
    });
    let is_so = has_shape(&inner, Rect::new(2, 1, 7, 6)?, [(4, 4), (1, 0), (5, 4)]);
    Some(is_so && both_agree(inner))
}

#[test]
fn shrinks_to_overlapping_corners(rt: HostRuntime) {
    assert!(rt; shrinks() == Some(true));
}

/// Whether the rows of a large shape agree, and those within it.
fn large_agrees() -> Option<bool> {
    let radii = Radii {
        tl: (31, 20),
        tr: (9, 10),
        br: (30, 20),
        bl: (10, 7),
    };
    let outer = Rounded::new(Rect::new(0, 0, 40, 30)?, radii)?;
    // The upper left corner is wider than what is left, and overlaps the lower right one.
    let inner = outer.inset(Widths {
        top: 4,
        right: 14,
        bottom: 4,
        left: 3,
    });
    Some(rows_agree(outer, false) && both_agree(inner))
}

#[test]
fn large_rows_are_covers(rt: HostRuntime) {
    assert!(rt; large_agrees() == Some(true));
}

/// Whether radii that are longer than a side, or than 4,096, are refused.
fn refuses_long_radii() -> Option<bool> {
    let radii = Radii {
        tl: (3, 3),
        tr: (2, 0),
        ..Radii::SQUARE
    };
    let large = Rect::new(0, 0, 9000, 9000)?;
    let long = Rounded::new(Rect::new(0, 0, 4, 4)?, radii).is_none();
    let longest = Rounded::new(large, all_round(4096, 1)).is_some();
    Some(long && longest && Rounded::new(large, all_round(4097, 1)).is_none())
}

#[test]
fn refuses_radii_longer_than_a_side(rt: HostRuntime) {
    assert!(rt; refuses_long_radii() == Some(true));
}

/// Whether a rectangle clip cuts, and a hole does not.
fn cuts() -> Option<bool> {
    let plain = Clip::of_rect(Rect::new(0, 0, 8, 8)?);
    let hole = Clip {
        shape: Rounded::new(Rect::new(2, 2, 6, 6)?, all_round(2, 2))?,
        out: true,
    };
    let left = cut(&[plain, hole], Rect::new(-3, 4, 20, 30)?);
    Some(plain.is_rect() && !hole.is_rect() && left == Rect::new(0, 4, 8, 8)?)
}

#[test]
fn rectangles_cut(rt: HostRuntime) {
    assert!(rt; cuts() == Some(true));
}

/// Whether a clip is the same as one of its rectangle, and before one of mode out.
fn compares() -> Option<bool> {
    let plain = Clip::of_rect(Rect::new(0, 0, 8, 8)?);
    let hole = Clip { out: true, ..plain };
    let same = plain.is_same(&Clip::of_rect(Rect::new(0, 0, 8, 8)?));
    Some(same && !plain.is_same(&hole) && plain.cmp(&hole) == Ordering::Less)
}

/// Whether the clips of a chain are moved, each as it is alone.
fn moves() -> Option<bool> {
    let plain = Clip::of_rect(Rect::new(0, 0, 8, 8)?);
    let hole = Clip { out: true, ..plain };
    let by = Point { x: -4, y: 2 };
    let mut chain = [plain, hole];
    shift_clips(&mut chain, by);
    let shape = hole.shape.shift(by).rect() == Rect::new(-4, 2, 4, 10)?;
    Some(shape && chain == [plain.shift(by), hole.shift(by)])
}

#[test]
fn compares_and_moves_chains(rt: HostRuntime) {
    assert!(rt; compares() == Some(true) && moves() == Some(true));
}

#[test]
fn laws_of_clips() {
    clip_laws();
    chain_laws();
    clip_order_laws();
}
