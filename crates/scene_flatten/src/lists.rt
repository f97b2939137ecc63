//! Lists that are made of others.

ghost use Rattle.std.specs.Prelude.{◌≡◌, ◌++◌, ◌∷◌, [], IfOk};

use containers::Sequence;
use std::alloc::{AllocError, Global};

/// A list of one member.
pub(crate) fn one<T: Drop>(alloc: Global, member: T) -> Result<Sequence<T>, AllocError>
    ensures { IfOk result (λ list. list ≡ member ∷ []) }
{
    let mut members = Vec::with_capacity(alloc, 1)?;
    members.push(member)?;
    Ok(Sequence::from_vec(members))
}

/// The members of one list, and then those of another.
pub(crate) fn joined<T: Copy + Drop>(
    alloc: Global,
    first: &[T],
    last: &[T],
) -> Result<Sequence<T>, AllocError>
    ensures { IfOk result (λ list. list ≡ first.now ++ last.now) }
{
    let mut members = Vec::with_capacity(alloc, first.len().saturating_add(last.len()))?;
    members.extend_from_slice(first)?;
    members.extend_from_slice(last)?;
    Ok(Sequence::from_vec(members))
}
