//! Which scroll frames move a node.

ghost use Rattle.std.specs.Prelude.{◌≡◌, ◌≤◌, length, IfOk};
ghost use Rattle.field_forms.specs.Facts.{IsDefined};
ghost use Rattle.spatial_tree.specs.Homes.{scroll_of, root_scroll_of, homes_of};

use super::lineage::chain_clips;
use display_list::{List, Node};
use std::alloc::Global;
use wr_geom::NoMemory;

/// The number of the outermost scroll frame on the way from the root to a node, itself included; None
/// exactly where there is none. It takes no memory.
pub fn root_scroll(list: &List, node: u16) -> Option<u16>
    requires { node ≤ length list.now.nodes }
    ensures { result ≡ root_scroll_of list.now.nodes node }
{
    let nodes = list.nodes();
    let mut outermost = None;
    let mut at = node;
    'up: while at > 0 {
        let frame = nodes[at as usize - 1];
        outermost = scroll_number(frame).or(outermost);
        at = frame.parent();
    }
    outermost
}

/// The number of a scroll frame.
fn scroll_number(node: Node) -> Option<u16>
    ensures { result ≡ scroll_of node }
{
    match node {
        Node::Reference { .. } => None,
        Node::Scroll { sid, .. } => Some(sid),
    }
}

/// The `root_scroll` of the node of each of a chain's clips, those of its parents, outermost first, before
/// its own.
pub fn homes(alloc: Global, list: &List, chain: Option<u16>) -> Result<Vec<Option<u16>>, NoMemory>
    requires { IsDefined (length list.now.chains) chain }
    ensures { IfOk result (λ homes. homes.items ≡ homes_of list.now chain) }
{
    let clips = list.clips();
    let gathered = chain_clips(list, chain);
    let numbers = gathered.as_slice();
    let mut homes = Vec::with_capacity(alloc, numbers.len())?;
    for number in numbers {
        homes.push(root_scroll(list, clips[*number as usize].node))?;
    }
    Ok(homes)
}
