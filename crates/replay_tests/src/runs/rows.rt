//! Frames drawn by rows are those painted pixel by pixel.

use super::files::{begun, push_transaction, push_transaction_of, view};
use super::items::Items;
use super::{CALM, Ends, ran_over};
use std::alloc::{AllocError, Global};
use std::test::Fail;

/// An image of key 9, of three by two pixels.
const ADD_IMAGE: [u8; 33] = [
    5, 9, 0, 0, 0, 3, 0, 2, 0, 1, 2, 3, 255, 4, 4, 4, 90, 0, 0, 0, 0, 9, 80, 70, 255, 3, 2, 1, 200,
    50, 50, 50, 50,
];

/// Its last pixel of the first row made opaque.
const UPDATE_IMAGE: [u8; 17] = [6, 9, 0, 0, 0, 2, 0, 0, 0, 1, 0, 1, 0, 7, 8, 9, 255];

/// The mask of glyph 5 in font 1, of two by two pixels.
const ADD_GLYPH: [u8; 13] = [8, 1, 0, 5, 0, 2, 0, 2, 0, 200, 255, 10, 0];

/// Scroll frame 1 by four pixels down.
const SCROLL: [u8; 11] = [3, 1, 0, 0, 0, 0, 0, 4, 0, 0, 0];

/// The list of pipeline 1.
fn inner(alloc: Global) -> Result<Vec<u8>, AllocError> {
    let mut items = Items::new(alloc);
    items.definitions()?;
    items.solid(0, 1, [0, 0, 12, 5], [0, 100, 0, 130])?;
    items.solid(1, 0, [2, 1, 20, 9], [60, 0, 60, 255])?;
    items.set_list(alloc)
}

/// The list of the root.
fn root(alloc: Global, mode: u8) -> Result<Vec<u8>, AllocError> {
    let mut items = Items::new(alloc);
    items.all(mode)?;
    items.set_list(alloc)
}

/// A file of one view in which every item is drawn in contexts of each mode, and then scrolled and given another
/// image.
fn file_of(alloc: Global, width: u8) -> Result<Vec<u8>, Fail> {
    let mut file = begun(alloc)?;
    let view = view(width, 9, [20, 30, 40, 90]);
    push_transaction(&mut file, true, &[&view, &ADD_IMAGE, &ADD_GLYPH])?;
    push_transaction_of(1, &mut file, false, &[&inner(alloc)?])?;
    for mode in 0..9u8 {
        push_transaction(&mut file, true, &[&root(alloc, mode)?])?;
    }
    push_transaction(&mut file, true, &[&SCROLL])?;
    push_transaction_of(1, &mut file, true, &[&SCROLL])?;
    push_transaction(&mut file, true, &[&UPDATE_IMAGE])?;
    file.push(b'Z')?;
    Ok(file)
}

/// A sink that takes the frames of a file.
const ROOMY: Ends<'static> = Ends {
    room: 3_000_000,
    ..CALM
};

#[test]
fn rows_show_every_item_as_pixels_do(rt: HostRuntime) -> Result<(), Fail> {
    for width in [1u8, 15, 16, 17] {
        let file = file_of(rt.alloc(), width)?;
        let replayed = ran_over(&rt, &["replay"], &file, &ROOMY)?;
        let painted = ran_over(&rt, &["paint"], &file, &ROOMY)?;
        // A frame of each transaction but that of pipeline 1's list.
        let frames = 13 * (5 + 36 * usize::from(width));
        assert!(rt; frames < replayed.out.len(), "{width} columns");
        assert_eq!(rt; (replayed.status, painted.status), (0, 0));
        assert_eq!(rt;
            replayed.out.as_slice(),
            painted.out.as_slice(),
            "{width} columns"
        );
    }
    Ok(())
}
