//! What a chain has from its parents.

ghost use Rattle.std.specs.Prelude.{◌≡◌, ◌+◌, ◌≤◌, ◌++◌, length, reverse};
ghost use Rattle.arrayvec.specs.ArrayVec.{array_vec_len};
ghost use Rattle.field_forms.specs.Facts.{IsDefined};
ghost use Rattle.spatial_tree.specs.Lineage.{clip_numbers};

use arrayvec::ArrayVec;
use display_list::List;

/// The numbers of a chain's clips, of which there are at most 255.
pub type ClipNumbers = ArrayVec<u16, 255>;

/// The numbers of a chain's clips: those of its parents, outermost first, and then its own. Without a chain
/// there is none. It takes no memory.
pub fn chain_clips(list: &List, chain: Option<u16>) -> ClipNumbers
    requires { IsDefined (length list.now.chains) chain }
    ensures { result.items ≡ clip_numbers list.now.chains chain }
{
    let chains = list.chains();
    let mut numbers: ClipNumbers = ArrayVec::new();
    let mut next = chain;
    'up: while let Some(number) = next {
        let chain = &chains[number as usize];
        push_reversed(&mut numbers, chain.clips.as_slice());
        next = chain.parent;
    }
    turn(&mut numbers);
    numbers
}

/// Turns the order of the numbers.
#[tactic(auto, using(crate::proofs::Chains::refilled))]
fn turn(numbers: &mut ClipNumbers)
    ensures { numbers.new.items ≡ reverse numbers.old.items }
{
    numbers.as_mut_slice().reverse();
}

/// Appends numbers, the last one first.
fn push_reversed(numbers: &mut ClipNumbers, clips: &[u16])
    requires { array_vec_len numbers.old + length clips.now ≤ 255 }
    ensures { numbers.new.items ≡ numbers.old.items ++ reverse clips.now }
{
    for number in clips.iter().rev() {
        numbers.push(*number);
    }
}

/// How many clips a chain has with its parents', at most 255. It takes no memory.
pub fn clip_count(list: &List, chain: Option<u16>) -> usize
    requires { IsDefined (length list.now.chains) chain }
    ensures count { result ≡ length (clip_numbers list.now.chains chain) }
    ensures most { result ≤ 255 }
{
    let chains = list.chains();
    let mut count = 0;
    let mut next = chain;
    'up: while let Some(number) = next {
        let chain = &chains[number as usize];
        count += chain.clips.len();
        next = chain.parent;
    }
    count
}
