//! How many clips each chain has.

ghost use Rattle.std.specs.Prelude.{◌≡◌, ◌≤◌, ◌<◌, IfOk, length, All};
ghost use Rattle.display_list.specs.Levels.{inherited, totals_of};
ghost use Rattle.display_list.specs.Facts.{IsList};
ghost use Rattle.list_summary.specs.Shown.{chain_clip_count};

use display_list::List;
use std::alloc::Global;
use wr_geom::NoMemory;

/// How many clips a chain has with its parents', by a table of that.
pub(crate) fn chain_clip_count(counts: &[u8], chain: Option<u16>) -> u8
    ensures { result ≡ chain_clip_count counts.now chain }
{
    match chain {
        None => 0,
        Some(chain) => counts.get(usize::from(chain)).copied().unwrap_or(0),
    }
}

/// How many clips each chain of a list has with its parents'.
pub(crate) fn chain_counts(alloc: Global, list: &List) -> Result<Vec<u8>, NoMemory>
    ensures { IfOk result (λ counts. counts.items ≡ totals_of list.now.chains) }
{
    let mut counts = Vec::new(alloc);
    for chain in list.chains() {
        let inherited = chain_clip_count(&counts, chain.parent);
        counts.push(inherited + chain.clips.len() as u8)?;
    }
    Ok(counts)
}
