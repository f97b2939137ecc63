use std::alloc::Global;
use std::cmp::Ordering;
use wr_geom::{NoMemory, Point, Radii, Rect, SliceKey, TileKey, Widths, rect_laws};

/// Whether the part that two rectangles share is the third.
fn meet_in(a: Rect, b: Rect, part: Rect) -> bool {
    a.intersect(b) == part
}

/// Whether rectangles meet, and rectangles that don't share the empty one.
fn meet() -> Option<bool> {
    let a = Rect::new(0, 0, 4, 4)?;
    let shared = meet_in(a, Rect::new(2, -1, 9, 3)?, Rect::new(2, 0, 4, 3)?);
    Some(shared && meet_in(a, Rect::new(4, 0, 8, 4)?, Rect::new(0, 0, 0, 0)?))
}

/// Whether rectangles are bounded, of which an empty one adds nothing.
fn bound() -> Option<bool> {
    let a = Rect::new(0, 0, 4, 4)?;
    let empty = Rect::new(5, 5, 5, 5)?;
    let both = a.bound(Rect::new(2, -1, 9, 3)?) == Rect::new(0, -1, 9, 4)?;
    let one = a.bound(Rect::new(9, 9, 9, 9)?) == a;
    Some(both && one && empty.bound(Rect::new(7, 1, 8, 1)?) == Rect::new(0, 0, 0, 0)?)
}

#[test]
fn meets_and_bounds(rt: HostRuntime) {
    assert!(rt; meet() == Some(true));
    assert!(rt; bound() == Some(true));
}

/// Whether a rectangle has its area and its points, and is moved.
fn is_read_and_moved() -> Option<bool> {
    let a = Rect::new(-3, 2, 5, 6)?;
    let within = a.contains(Point { x: -3, y: 5 }) && !a.contains(Point { x: 5, y: 5 });
    let moved = a.shift(Point { x: 10, y: -2 });
    let edges = [moved.x0(), moved.y0(), moved.x1(), moved.y1()] == [7, 0, 15, 4];
    Some(within && edges && a.area() == 32 && !a.is_empty())
}

#[test]
fn reads_and_moves(rt: HostRuntime) {
    assert!(rt; is_read_and_moved() == Some(true));
}

/// Whether coordinates end at 2^29, and edges come in order.
fn ends_in_range() -> Option<bool> {
    let far = 1 << 29;
    let largest = Rect::new(-far, -far, far, far)?.area() == 1 << 60;
    let beyond = Rect::new(0, 0, far + 1, 0).is_none() && Rect::new(-far - 1, 0, 0, 0).is_none();
    Some(largest && beyond && Rect::new(1, 0, 0, 0).is_none())
}

#[test]
fn keeps_its_range(rt: HostRuntime) {
    assert!(rt; ends_in_range() == Some(true));
}

const RADII: Radii = Radii {
    tl: (5, 2),
    br: (5, 2),
    tr: (5, 3),
    bl: (5, 3),
};

const WIDTHS: Widths = Widths {
    top: 1,
    right: 3,
    bottom: 4,
    left: 7,
};

/// Whether radii fit a rectangle's sides, and not with one that is longer.
fn radii_fit() -> Option<bool> {
    let rect = Rect::new(-2, 0, 8, 5)?;
    let longer = Radii {
        bl: (6, 3),
        ..RADII
    };
    let sides = rect.width() == 10 && rect.height() == 5;
    Some(sides && RADII.fit(rect) && !longer.fit(rect))
}

#[test]
fn radii_fit_a_side(rt: HostRuntime) {
    assert!(rt; radii_fit() == Some(true));
}

#[test]
fn radii_are_at_most_4096(rt: HostRuntime) {
    let longer = Radii {
        tr: (0, 4097),
        ..Radii::SQUARE
    };
    assert!(rt; Radii::SQUARE.are_small() && !longer.are_small());
}

/// Whether widths fit a rectangle's sides, and not with one that is wider.
fn widths_fit() -> Option<bool> {
    let rect = Rect::new(-2, 0, 8, 5)?;
    Some(WIDTHS.fit(rect) && !Widths { top: 2, ..WIDTHS }.fit(rect))
}

#[test]
fn widths_fit_a_side(rt: HostRuntime) {
    let wider = Widths {
        left: 4097,
        ..WIDTHS
    };
    assert!(rt; widths_fit() == Some(true));
    assert!(rt; WIDTHS.are_small() && !wider.are_small());
}

#[test]
fn keys_come_by_column_and_row(rt: HostRuntime) {
    let slice = SliceKey {
        scroll: Some((1, 65535)),
        nth: 0,
    };
    let first = TileKey {
        slice,
        col: -1,
        row: 4,
    };
    let second = TileKey {
        slice,
        col: 0,
        row: -1,
    };
    assert!(rt; first.cmp(&second) == Ordering::Less);
}

#[test]
fn points_add(rt: HostRuntime) {
    let sum = Point { x: 7, y: -3 }.plus(Point { x: -9, y: 3 });
    assert!(rt; sum == Point { x: -2, y: 0 });
}

#[test]
fn laws_of_rectangles() {
    rect_laws();
}

/// Whether the error has its words.
fn says_its_words(alloc: Global) -> bool {
    match format!(in alloc; "{}", NoMemory) {
        Ok(text) => text.as_str() == "out of memory",
        Err(_) => false,
    }
}

#[test]
fn says_what_failed(rt: HostRuntime) {
    assert!(rt; says_its_words(rt.alloc()));
}
