//! Glyphs that are stored later.

use crate::list_bytes::ListBytes;
use crate::stage::{Stage, WHITE, on_a_stage};
use wr_geom::NoMemory;

/// Two glyphs, of which the first is stored.
fn text(stage: &mut Stage) -> Result<(), NoMemory> {
    let mut list = ListBytes::new(stage.alloc());
    list.text([0, 0, 2, 1], WHITE, [(5, 0, 0), (6, 1, 0)])?;
    let mut ops = stage.ops(0);
    ops.set_view(2, 1, [0, 0, 0, 255])?;
    ops.add_glyph(5, 1, 1, &[200])?;
    ops.set_list(list)?;
    let payload = ops.finish(true)?;
    stage.apply(payload.as_slice())?;
    Ok(())
}

/// Whether the second shows once it is stored.
fn stores_a_glyph(stage: &mut Stage) -> Result<(), NoMemory> {
    text(stage)?;
    stage.expect_pixel(0, 0, [200, 200, 200, 255]);
    stage.expect_pixel(1, 0, [0, 0, 0, 255]);
    let mut ops = stage.ops(0);
    ops.add_glyph(6, 1, 1, &[255])?;
    stage.show(ops, 1, 2)?;
    stage.expect_pixel(1, 0, WHITE);
    Ok(())
}

#[test]
fn a_glyph_shows_once_it_is_stored(rt: HostRuntime) {
    assert!(rt; on_a_stage(rt.alloc(), stores_a_glyph) == Ok(true));
}
