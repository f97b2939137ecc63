//! What a chain covers at one point.

ghost use Rattle.std.specs.Prelude.{◌≡◌, length};
ghost use Rattle.clip_masks.specs.Coverage.{chain_coverage};
ghost use Rattle.field_forms.specs.Facts.{IsDefined};
ghost use Rattle.spatial_tree.specs.Offsets.{IsOrigin, offset_of};
ghost use Rattle.clip_tree.specs.Placed.{placed_clips};

use super::placed::placed;
use blend_rules::mul;
use display_list::List;
use spatial_tree::{Moves, chain_clips, node_offset};
use wr_geom::Point;

/// What a chain's clips, outermost first, leave of the cover `outer` in the pixel (x, y), of 255, where the
/// root is at `origin`. It takes no memory.
pub fn chain_cover_at(
    list: &List,
    moves: &Moves,
    origin: Point,
    chain: Option<u16>,
    outer: u8,
    x: i32,
    y: i32,
) -> u8
    requires origin { IsOrigin origin }
    requires chain { IsDefined (length list.now.chains) chain }
    ensures { result ≡ chain_coverage (placed_clips list.now (offset_of list.now.nodes moves.now origin) chain) outer x y }
{
    let defined = list.clips();
    let gathered = chain_clips(list, chain);
    let numbers = gathered.as_slice();
    let mut cover = outer;
    for number in numbers {
        let clip = &defined[*number as usize];
        let placed = placed(clip, node_offset(list, moves, origin, clip.node));
        cover = mul(cover, placed.cover(x, y));
    }
    cover
}
