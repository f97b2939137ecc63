//! A window with a toolbar, a page that scrolls, and a shade over its last rows.

use crate::list_bytes::{ListBytes, NONE};
use crate::stage::{SHADE, Stage, WHITE, on_a_stage};
use std::alloc::AllocError;
use wr_geom::NoMemory;

const GREY: [u8; 4] = [224, 224, 224, 255];

const BLUE: [u8; 4] = [255, 0, 0, 255];

const BLACK: [u8; 4] = [0, 0, 0, 255];

/// The toolbar, the page and the shade.
fn set_window(stage: &mut Stage) -> Result<(), NoMemory> {
    let mut list = ListBytes::new(stage.alloc());
    list.solid([0, 0, 640, 40], GREY)?;
    list.text([8, 8, 200, 32], BLACK, [(5, 10, 10), (6, 30, 12)])?;
    list.iframe([0, 40, 640, 480], 1)?;
    list.solid([0, 440, 640, 480], SHADE)?;
    let mut ops = stage.ops(0);
    ops.set_view(640, 480, WHITE)?;
    ops.add_glyph(5, 16, 16, &[200; 256])?;
    ops.add_glyph(6, 8, 8, &[90; 64])?;
    ops.set_list(list)?;
    stage.accept(ops)
}

/// The items of the page.
fn add_page(list: &mut ListBytes) -> Result<(), AllocError> {
    list.scroll_frame(0, 1, [640, 440, 640, 2000])?;
    list.round_clip(1, false, [20, 20, 620, 220], 2)?;
    list.chain(NONE, 0)?;
    list.node = 1;
    list.solid([0, 0, 640, 2000], WHITE)?;
    list.chain = 0;
    list.solid([20, 20, 620, 220], BLUE)?;
    list.chain = NONE;
    list.image([40, 60, 200, 76], 9)?;
    list.border([300, 60, 400, 120], 2, BLACK, 4)
}

/// Shows the window with its page.
fn show_page(stage: &mut Stage) -> Result<(), NoMemory> {
    let mut list = ListBytes::new(stage.alloc());
    add_page(&mut list)?;
    let mut ops = stage.ops(1);
    ops.add_image(9, 16, 16, &[255; 1024])?;
    ops.set_list(list)?;
    stage.report(ops, 12, 786432)?;
    stage.expect_pixel(0, 0, GREY);
    stage.expect_pixel(20, 60, [255, 159, 159, 255]);
    stage.expect_pixel(0, 479, [127, 127, 127, 255]);
    Ok(())
}

/// Scrolls the page down to a row.
fn scroll_page(stage: &mut Stage, y: u32, tiles: u32, drawn: u64) -> Result<(), NoMemory> {
    let mut ops = stage.ops(1);
    ops.scroll(1, y)?;
    stage.report(ops, tiles, drawn)
}

/// Whether the page scrolls under the toolbar, and a changed texel costs the image's pixels.
fn shows_a_window(stage: &mut Stage) -> Result<(), NoMemory> {
    set_window(stage)?;
    show_page(stage)?;
    scroll_page(stage, 30, 12, 0)?;
    stage.expect_pixel(20, 36, GREY);
    scroll_page(stage, 100, 15, 196608)?;
    let mut ops = stage.ops(1);
    ops.update_texel(9, 3, 3, BLUE)?;
    stage.report(ops, 15, 2560)
}

#[test]
fn a_window(rt: HostRuntime) {
    assert!(rt; on_a_stage(rt.alloc(), shows_a_window) == Ok(true));
}
