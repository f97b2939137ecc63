//! Whether entries can be drawn.

ghost use Rattle.std.specs.Prelude.{◌<◌, ◌^◌, IsTrue, length};
ghost use Rattle.primitives.specs.Stacks.{balanced, is_shallow};

use primitives::Entry;

/// Whether there are fewer than a thousand entries, each group ends, and at most 64 are open at once.
pub(crate) fn can_draw(entries: &[Entry]) -> bool
    ensures few { IsTrue result → length entries.now < 2 ^ 32 }
    ensures balanced { IsTrue result → IsTrue (balanced 0 entries.now) }
    ensures shallow { IsTrue result → IsTrue (is_shallow 64 entries.now) }
{
    if entries.len() >= 1000 {
        return false;
    }
    let mut opened: usize = 0;
    let mut i = 0;
    'entries: while i < entries.len() {
        match &entries[i] {
            Entry::Primitive(_) => {}
            Entry::Push { .. } => {
                if opened == 64 {
                    return false;
                }
                opened += 1;
            }
            Entry::Pop => {
                if opened == 0 {
                    return false;
                }
                opened -= 1;
            }
        }
        i += 1;
    }
    opened == 0
}
