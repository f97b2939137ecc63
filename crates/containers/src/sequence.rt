//! Members in order.

ghost use Rattle.std.specs.Prelude.{◌≡◌, ◌<◌, ◌-◌, ◌≤◌, ◌++◌, ◌∷◌, ◌==◌, [], length, take, drop, slice_get, IfOk, OnOk, OnErr};
ghost use Rattle.std.specs.Option.{option_copied};
ghost use Rattle.std.specs.Borrow.{sem};
ghost use Rattle.std.specs.Hash as fed;
ghost use Rattle.std.specs.Hash.{items_Alike};
ghost use Rattle.std.specs.List.{AllZip};
ghost use Rattle.containers.specs.Clones.{same_members};
ghost use Rattle.std.specs.Fmt.{debug_list};
ghost use Rattle.std.specs.Cmp.Lexicographic.{pointwise, slice_cmp, slice_partial_cmp, lists_equiv, lists_agrees, lists_total, lists_ties, lists_po, lists_per};

use crate::Exact;
use std::alloc::{AllocError, Global};
use std::cmp::Ordering;
use std::fmt::{self, Debug, Formatter, Write};
use std::hash::{Hash, Hasher};
use std::marker::Model;

/// Members in order, as many as memory holds.
#[derive(Drop)]
pub struct Sequence<T> {
    members: Vec<T>,
}

impl<T> Model for Sequence<T> {
    ghost use Rattle.std.specs.Prelude.{List};

    ghost Value = { List T };

    ghost view = { λ s. s.members.items };
}

impl<T> Sequence<T> {
    /// Without a member. It takes no memory.
    pub fn new(alloc: Global) -> Sequence<T>
        ensures { result ≡ [] }
    {
        Sequence {
            members: Vec::new(alloc),
        }
    }

    /// The members of a vector, which aren't moved in memory.
    pub fn from_vec(members: Vec<T>) -> Sequence<T>
        ensures { result ≡ members.items }
    {
        Sequence { members }
    }

    /// The members as a vector, which aren't moved in memory.
    pub fn into_vec(self) -> Vec<T>
        ensures { result.items ≡ self }
    {
        self.members
    }

    /// Their number.
    pub fn len(&self) -> usize
        ensures { result ≡ length self.now }
    {
        self.members.len()
    }

    /// Whether there is none.
    pub fn is_empty(&self) -> bool
        ensures { result ≡ (length self.now == 0) }
    {
        self.members.is_empty()
    }

    /// The members.
    pub fn as_slice(&self) -> &[T]
        ensures { result.now ≡ self.now }
    {
        self.members.as_slice()
    }

    /// The member at an index, or none beyond the last.
    pub fn get(&self, index: usize) -> Option<&T>
        ensures { option_copied result ≡ slice_get self.now index }
    {
        self.members.as_slice().get(index)
    }

    /// The first member.
    pub fn first(&self) -> Option<&T>
        ensures { option_copied result ≡ slice_get self.now 0 }
    {
        self.members.as_slice().first()
    }

    /// The last member.
    pub fn last(&self) -> Option<&T>
        ensures { option_copied result ≡ slice_get self.now (length self.now - 1) }
    {
        self.members.as_slice().last()
    }
}

impl<T: Drop> Sequence<T> {
    /// One more member at the end.
    pub fn push(&mut self, member: T) -> Result<(), AllocError>
        ensures ok { OnOk result (self.new ≡ self.old ++ member ∷ []) }
        ensures err { OnErr result (self.new ≡ self.old) }
    {
        self.members.push(member)?;
        Ok(())
    }

    /// Drops all members. The memory stays for the next ones.
    pub fn clear(&mut self)
        ensures { self.new ≡ [] }
    {
        self.members.clear();
    }

    /// Drops the members from an index on. The memory stays for the next ones.
    pub fn truncate(&mut self, len: usize)
        ensures { self.new ≡ take len self.old }
    {
        self.members.truncate(len);
    }

    /// Drops so many members at the start, and moves the others there in one pass.
    pub fn remove_front(&mut self, count: usize)
        requires { count ≤ length self.old }
        ensures { self.new ≡ drop count self.old }
    {
        let left = self.members.len() - count;
        self.members.as_mut_slice().rotate_left(count);
        self.members.truncate(left);
    }
}

impl<T> Sequence<T> {
    ghost use Rattle.containers.specs.LentMember.{LendsMember};

    /// The member at an index, to write to.
    pub fn member_mut(&mut self, index: usize) -> &mut T
        requires { index < length self.old }
        ensures* writes_back { sem 𝓛 (LendsMember T.row self.entry index result) }
        ensures value { slice_get self.old index ≡ Some result.now }
    {
        &mut self.members[index]
    }
}

impl<T: PartialEq> PartialEq for Sequence<T> {
    ghost eq = { pointwise T.eq };

    ghost laws = { lists_per T.laws };

    fn eq(&self, other: &Self) -> bool {
        self.members == other.members
    }
}

impl<T: Eq> Eq for Sequence<T> {
    ghost laws = { lists_equiv T.Eq.laws };
}

impl<T: PartialOrd> PartialOrd for Sequence<T> {
    ghost partial_cmp = { slice_partial_cmp T.partial_cmp };

    ghost laws = { lists_po T.PartialOrd.laws };

    fn partial_cmp(&self, other: &Self) -> Option<Ordering> {
        self.members.partial_cmp(&other.members)
    }
}

impl<T: Ord> Ord for Sequence<T> {
    ghost cmp = { slice_cmp T.cmp };

    ghost total = { lists_total T.total };

    ghost matches_partial_cmp = { lists_agrees T.matches_partial_cmp };

    ghost matches_eq = { lists_ties T.cmp T.matches_eq };

    fn cmp(&self, other: &Self) -> Ordering {
        self.members.cmp(&other.members)
    }
}

impl<T: Hash> Hash for Sequence<T> {
    ghost hash_input = { fed.slice T.hash_input };

    ghost respects_eq = { (items_Alike (record { fed = T.respects_eq })).fed };

    fn hash<H: Hasher>(&self, state: &mut H) {
        self.members.hash(state);
    }
}

impl<T: Debug> Debug for Sequence<T> {
    ghost debug_output = { debug_list T.debug_output };

    fn fmt<W: Write>(&self, f: &mut Formatter<W>) -> fmt::Result {
        Debug::fmt(&self.members, f)
    }
}

impl<T: Clone> Clone for Sequence<T> {
    ghost is_clone = { AllZip T.is_clone };

    fn clone(&self) -> Result<Sequence<T>, AllocError> {
        let members = self.members.clone()?;
        Ok(Sequence { members })
    }
}

impl<T: Exact> Exact for Sequence<T> {
    ghost exact = { same_members T.is_clone T.exact };
}
