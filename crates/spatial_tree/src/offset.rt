//! Where nodes are.

ghost use Rattle.std.specs.Prelude.{◌≡◌, ◌≤◌, ◌+◌, length, All, IfOk};
ghost use Rattle.spatial_tree.specs.Offsets.{IsOrigin, IsOffset, offset_of, offsets_of};

use super::Moves;
use display_list::List;
use std::alloc::Global;
use wr_geom::{NoMemory, Point};

/// The offset of each node by its number, the root's first, in pixels: where the node is, if the root is at
/// `origin`, which is at most 2^28 pixels from (0, 0) on each axis. No node is more than 2^28 + 2^27 pixels
/// from (0, 0).
pub fn offsets(
    alloc: Global,
    list: &List,
    moves: &Moves,
    origin: Point,
) -> Result<Vec<Point>, NoMemory>
    requires { IsOrigin origin }
    ensures table { IfOk result (λ table. table.items ≡ offsets_of list.now.nodes moves.now origin) }
    ensures len { IfOk result (λ table. length table.items ≡ length list.now.nodes + 1) }
    ensures near { IfOk result (λ table. All IsOffset table.items) }
{
    // Every offset is near because positions and properties are.
    let _stored = moves.scrolls();
    let nodes = list.nodes();
    let mut table = Vec::with_capacity(alloc, nodes.len() + 1)?;
    table.push(origin)?;
    for node in nodes {
        let parent = table[node.parent() as usize];
        table.push(parent.plus(moves.shift(*node)))?;
    }
    Ok(table)
}

/// The offset of one node, as `offsets` gives it. It takes no memory.
pub fn node_offset(list: &List, moves: &Moves, origin: Point, node: u16) -> Point
    requires origin { IsOrigin origin }
    requires node { node ≤ length list.now.nodes }
    ensures value { result ≡ offset_of list.now.nodes moves.now origin node }
    ensures near { IsOffset result }
{
    if node == 0 {
        return origin;
    }
    let frame = list.nodes()[node as usize - 1];
    node_offset(list, moves, origin, frame.parent()).plus(moves.shift(frame))
}
