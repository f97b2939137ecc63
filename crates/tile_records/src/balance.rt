//! Whether entries are primitives and whole groups.

ghost use Rattle.std.specs.Prelude.{◌≡◌, ◌<◌, ◌^◌, Some};
ghost use Rattle.primitives.specs.Stacks.{balanced};
ghost use Rattle.tile_records.specs.Dirt.{depth_after};

use primitives::Entry;

/// How many groups are open after an entry, and none where it ends a group that isn't open.
pub(crate) fn depth_after(entry: &Entry, depth: usize) -> Option<usize>
    requires { depth < 2 ^ 63 }
    ensures { result ≡ depth_after (Some entry.now) depth }
{
    match entry {
        Entry::Push { .. } => Some(depth + 1),
        Entry::Pop => depth.checked_sub(1),
        Entry::Primitive(_) => Some(depth),
    }
}

/// Whether each group is ended, and no other: `make_record` and `make_records` ask it of entries. It takes no memory.
pub fn is_balanced(entries: &[Entry]) -> bool
    ensures { result ≡ balanced 0 entries.now }
{
    let mut depth: usize = 0;
    for entry in entries {
        match depth_after(entry, depth) {
            Some(next) => depth = next,
            None => return false,
        }
    }
    depth == 0
}
