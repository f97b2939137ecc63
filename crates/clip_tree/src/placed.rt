//! Clips that are moved to their nodes' offsets.

ghost use Rattle.std.specs.Prelude.{◌≡◌, ◌+◌, ◌++◌, length, All, IfOk, OnOk, OnErr};
ghost use Rattle.clip_masks.specs.Clips.{shifted_clip};
ghost use Rattle.field_forms.specs.Facts.{IsDefined};
ghost use Rattle.display_list.specs.Facts.{IsClip};
ghost use Rattle.spatial_tree.specs.Offsets.{IsOffset};
ghost use Rattle.clip_tree.specs.Placed.{clip_of, placed_clips, in_table};

use clip_masks::{Clip, Rounded};
use display_list::{ClipDef, List};
use spatial_tree::chain_clips;
use std::alloc::Global;
use wr_geom::{NoMemory, Point};

/// A chain's clips, each moved to its node's offset in the table: those of its parents, outermost first, and
/// then its own. The table has the root's offset and then one for each node, as `spatial_tree::offsets`
/// gives them, in pixels.
pub fn resolve(
    alloc: Global,
    list: &List,
    chain: Option<u16>,
    offsets: &[Point],
) -> Result<Vec<Clip>, NoMemory>
    requires chain { IsDefined (length list.now.chains) chain }
    requires table { length offsets.now ≡ length list.now.nodes + 1 }
    requires near { All IsOffset offsets.now }
    ensures { IfOk result (λ clips. clips.items ≡ placed_clips list.now (in_table offsets.now) chain) }
{
    let mut clips = Vec::new(alloc);
    resolve_into(list, chain, offsets, &mut clips)?;
    Ok(clips)
}

/// Appends a chain's clips as `resolve` gives them. Where memory runs out, `out` is as before.
pub fn resolve_into(
    list: &List,
    chain: Option<u16>,
    offsets: &[Point],
    out: &mut Vec<Clip>,
) -> Result<(), NoMemory>
    requires chain { IsDefined (length list.now.chains) chain }
    requires table { length offsets.now ≡ length list.now.nodes + 1 }
    requires near { All IsOffset offsets.now }
    ensures ok { OnOk result (out.new.items ≡ out.old.items ++ placed_clips list.now (in_table offsets.now) chain) }
    ensures err { OnErr result (out.new.items ≡ out.old.items) }
{
    let defined = list.clips();
    let gathered = chain_clips(list, chain);
    let numbers = gathered.as_slice();
    out.reserve(numbers.len())?;
    let before = out.len();
    for number in numbers {
        let clip = &defined[*number as usize];
        let placed = placed(clip, offsets[clip.node as usize]);
        if let Err(error) = out.push(placed) {
            out.truncate(before);
            return Err(error.into());
        }
    }
    Ok(())
}

/// A clip that meets the checks of a display list, moved to its node's offset.
pub(crate) fn placed(clip: &ClipDef, offset: Point) -> Clip
    requires clip { IsClip 65535 clip.now }
    requires offset { IsOffset offset }
    ensures { result ≡ shifted_clip (clip_of clip.now) offset }
{
    let shape = Rounded::new(clip.rect, clip.radii).unwrap();
    Clip {
        shape,
        out: clip.out,
    }
    .shift(offset)
}
