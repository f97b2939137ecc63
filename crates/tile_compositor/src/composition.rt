//! Frames composed from kept tiles.

ghost use Rattle.std.specs.Prelude.{◌≡◌, ◌<◌, ℕ, pos, All, Some};
ghost use Rattle.blend_rules.specs.Colour.{IsPremultiplied};
ghost use Rattle.span_kernels.specs.PlanesModel.{pixel_at};
ghost use Rattle.tile_grid.specs.Tiles.{AreTileSides};
ghost use Rattle.tile_compositor.specs.Laid.{KeepSides};
ghost use Rattle.tile_compositor.specs.Composition.{CanAllBeShown, IsPlacedIn, composed};

use crate::frame::Frame;
use crate::part::fill_frame;
use crate::placed::Placed;
use crate::slice::lay_slices;
use blend_rules::Px;
use tile_grid::TileSides;
use tile_store::TileStore;

/// Puts a frame together from the kept tiles of slices, the backmost slice first, over a clear colour. Tiles are `tw` by
/// `th` pixels, 64 to 1,024 each. A tile that isn't kept is clear. The clear colour and all colours of kept tiles must be
/// premultiplied, and what slices show must lie in the frame. It takes no memory.
pub fn compose<R: Drop>(
    tiles: &TileStore<R>,
    placed: &[Placed],
    tw: u16,
    th: u16,
    clear: Px,
    out: &mut Frame,
)
    requires sides { AreTileSides (record { width = tw; height = th }) }
    requires tiles { CanAllBeShown (record { width = tw; height = th }) tiles.now.tiles }
    requires placed { All (IsPlacedIn out.old.planes) placed.now }
    requires clear { IsPremultiplied clear }
    ensures sides { KeepSides out.old.planes out.new.planes }
    ensures value { (x y : ℕ) → x < out.new.planes.width → y < out.new.planes.height
        → pixel_at out.new.planes x y ≡ composed (record { width = tw; height = th }) tiles.now.tiles placed.now (pos x) (pos y) clear }
    ensures opened { out.new.opened ≡ Some tiles.now.opened }
{
    let sides = TileSides {
        width: tw,
        height: th,
    };
    fill_frame(&mut out.planes, clear);
    lay_slices(&mut out.planes, tiles, placed, sides);
    out.opened = Some(tiles.opened());
}
