//! Pixels of planes, written row by row.

ghost use Rattle.std.specs.Prelude.{◌≡◌, ◌<◌, ◌++◌, map, OnOk};
ghost use Rattle.std.specs.List.{flat_map, range_with_len};
ghost use Rattle.blend_rules.specs.Colour.{colour_bytes};
ghost use Rattle.span_kernels.specs.PlanesModel.{pixel_at};
ghost use Rattle.frame_replay.specs.Frame.{row_by_row};

use span_kernels::{Planes, know_planes, weave_row};
use std::alloc::AllocError;

/// Appends the bytes of a row's pixels, from the left.
fn put_row(out: &mut Vec<u8>, planes: &Planes, y: u16) -> Result<(), AllocError>
    requires { y < planes.now.height }
    ensures { OnOk result (out.new.items ≡ out.old.items ++ flat_map colour_bytes (map (λ x. pixel_at planes.now x y) (range_with_len 0 planes.now.width))) }
{
    know_planes(planes);
    let row = planes.rows(y);
    let start = out.len();
    let end = start + 4 * usize::from(planes.width());
    out.resize(end, 0)?;
    weave_row(row.b, row.g, row.r, row.a, out.slice_mut(start..end));
    Ok(())
}

/// Appends the bytes of all pixels, row by row from the top.
pub(crate) fn put_rows(out: &mut Vec<u8>, planes: &Planes) -> Result<(), AllocError>
    ensures { OnOk result (out.new.items ≡ out.old.items ++ flat_map colour_bytes (row_by_row planes.now.width planes.now.height (pixel_at planes.now))) }
{
    let height = planes.height();
    for y in 0..height {
        put_row(out, planes, y)?;
    }
    Ok(())
}
