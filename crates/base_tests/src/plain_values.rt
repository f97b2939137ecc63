ghost use Rattle.std.specs.Prelude.{◌≡◌, IfOk};

use containers::{Exact, NumberMap, PairMap, Sequence, Shared};
use std::alloc::{AllocError, Global};
use std::cmp::Ordering;
use std::collections::hash_map::DefaultHasher;
use std::hash::{Hash, Hasher};

fn numbers(alloc: Global, members: &[u32]) -> Result<Sequence<u32>, AllocError>
    ensures { IfOk result (λ all. all ≡ members.now) }
{
    Ok(Sequence::from_vec(Vec::from_slice(alloc, members)?))
}

/// Whether members that are pushed are read by index, and at both ends.
fn reads_its_list(all: &mut Sequence<u32>) -> Result<bool, AllocError> {
    let empty = all.is_empty() && all.first().is_none();
    for member in 1..6u32 {
        all.push(member)?;
    }
    let by_index = all.get(1).copied() == Some(2) && all.get(5).is_none();
    let ends = all.first().copied() == Some(1) && all.last().copied() == Some(5);
    Ok(empty && by_index && ends && all.as_slice() == [1, 2, 3, 4, 5].as_slice())
}

#[test]
fn a_sequence_is_its_list(rt: HostRuntime) {
    assert!(rt; reads_its_list(&mut Sequence::new(rt.alloc())) == Ok(true));
}

/// Whether two members are dropped in front of two, and those after them.
fn drops_at_both_ends(all: &mut Sequence<u32>) -> bool {
    if all.len() != 5 {
        return false;
    }
    all.remove_front(2);
    all.truncate(2);
    let middle = all.as_slice() == [3, 4].as_slice();
    all.clear();
    middle && all.is_empty()
}

/// Whether that holds of five members.
fn drops_of_five(alloc: Global) -> Result<bool, AllocError> {
    let mut all = numbers(alloc, &[1, 2, 3, 4, 5])?;
    Ok(drops_at_both_ends(&mut all))
}

#[test]
fn members_are_dropped_at_both_ends(rt: HostRuntime) {
    assert!(rt; drops_of_five(rt.alloc()) == Ok(true));
}

/// Whether a member is written, and the other stays in the vector.
fn writes_a_member(alloc: Global) -> Result<bool, AllocError> {
    let mut all = numbers(alloc, &[3, 4])?;
    if all.len() == 2 {
        *all.member_mut(0) = 9;
    }
    Ok(all.into_vec().as_slice() == [9, 4].as_slice())
}

#[test]
fn a_member_is_written(rt: HostRuntime) {
    assert!(rt; writes_a_member(rt.alloc()) == Ok(true));
}

/// Whether two sequences are told apart, of which the first comes before the second.
fn come_in_order(low: &Sequence<u32>, high: &Sequence<u32>) -> bool {
    let less = low.cmp(high) == Ordering::Less;
    less && low != high && high.partial_cmp(low) == Some(Ordering::Greater)
}

/// Whether a sequence comes before one that it begins, and is equal to its clone.
fn compares(alloc: Global) -> Result<bool, AllocError> {
    let low = numbers(alloc, &[1, 2])?;
    let high = numbers(alloc, &[1, 2, 0])?;
    let same = low == low.clone()?;
    Ok(same && come_in_order(&low, &high))
}

#[test]
fn sequences_compare_by_their_members(rt: HostRuntime) {
    assert!(rt; compares(rt.alloc()) == Ok(true));
}

fn hash_of(members: &Sequence<u32>) -> u64 {
    let mut hasher = DefaultHasher::new();
    members.hash(&mut hasher);
    hasher.finish()
}

/// Whether a sequence is written so.
fn is_written(alloc: Global, members: &Sequence<u32>, words: &str) -> bool {
    match format!(in alloc; "{:?}", members) {
        Ok(text) => text.as_str() == words,
        Err(_) => false,
    }
}

/// Whether a sequence has the hash of its clone, and its own text.
fn has_hash_and_text(alloc: Global) -> Result<bool, AllocError> {
    let members = numbers(alloc, &[1, 2])?;
    let same = hash_of(&members) == hash_of(&members.clone()?);
    Ok(same && is_written(alloc, &members, "[1, 2]"))
}

#[test]
fn equal_sequences_have_one_hash_and_text(rt: HostRuntime) {
    assert!(rt; has_hash_and_text(rt.alloc()) == Ok(true));
}

/// Whether the number 7 has the value that was inserted last, and is removed once.
fn keeps_the_last(map: &mut NumberMap<u8>) -> Result<bool, AllocError> {
    map.insert(7, 70)?;
    map.insert(3, 30)?;
    map.insert(7, 71)?;
    let held = map.len() == 2 && map.get(7).copied() == Some(71);
    let known = map.contains(3) && !map.contains(4);
    Ok(held && known && map.remove(7) == Some(71) && map.remove(7).is_none())
}

#[test]
fn a_number_has_its_last_value(rt: HostRuntime) {
    assert!(rt; keeps_the_last(&mut NumberMap::new(rt.alloc())) == Ok(true));
}

/// Whether a map has two numbers with these values, and they come in this order.
fn tells_numbers(map: &NumberMap<u8>, first: (u32, u8), second: (u32, u8)) -> bool {
    let mut entries = map.iter();
    let told = entries.next() == Some((&first.0, &first.1))
        && entries.next() == Some((&second.0, &second.1));
    told && entries.next().is_none()
}

/// Inserts 7 and then 3, and changes the value of 3.
fn insert_numbers(map: &mut NumberMap<u8>) -> Result<(), AllocError> {
    map.insert(7, 71)?;
    map.insert(3, 30)?;
    if let Some(value) = map.get_mut(3) {
        *value = 33;
    }
    Ok(())
}

/// Whether the clone of a map that is cleared keeps its numbers, in rising order.
fn orders_numbers(map: &mut NumberMap<u8>) -> Result<bool, AllocError> {
    insert_numbers(map)?;
    let copy = map.clone()?;
    map.clear();
    Ok(map.is_empty() && !copy.is_empty() && tells_numbers(&copy, (3, 33), (7, 71)))
}

#[test]
fn numbers_come_in_rising_order(rt: HostRuntime) {
    assert!(rt; orders_numbers(&mut NumberMap::new(rt.alloc())) == Ok(true));
}

/// Whether a pair has the value that was inserted last, and is removed.
fn keeps_the_last_pair(map: &mut PairMap<u8>) -> Result<bool, AllocError> {
    map.insert((1, 2), 12)?;
    map.insert((0, 9), 9)?;
    map.insert((1, 2), 13)?;
    let held = map.len() == 2 && map.get((1, 2)).copied() == Some(13);
    let known = map.contains((0, 9)) && !map.contains((9, 0));
    Ok(held && known && map.remove((1, 2)) == Some(13))
}

#[test]
fn two_numbers_have_their_last_value(rt: HostRuntime) {
    assert!(rt; keeps_the_last_pair(&mut PairMap::new(rt.alloc())) == Ok(true));
}

/// Whether a map has two pairs with these values, and they come in this order.
fn tells_pairs(map: &PairMap<u8>, first: ((u32, u32), u8), second: ((u32, u32), u8)) -> bool {
    let mut entries = map.iter();
    let told = entries.next() == Some((&first.0, &first.1))
        && entries.next() == Some((&second.0, &second.1));
    told && entries.next().is_none()
}

/// Inserts two pairs, and changes the value of the lower one.
fn insert_pairs(map: &mut PairMap<u8>) -> Result<(), AllocError> {
    map.insert((1, 9), 19)?;
    map.insert((0, 9), 9)?;
    if let Some(value) = map.get_mut((0, 9)) {
        *value = 90;
    }
    Ok(())
}

/// Whether a map keeps its pairs, in rising order, where its clone is cleared.
fn orders_pairs(map: &mut PairMap<u8>) -> Result<bool, AllocError> {
    insert_pairs(map)?;
    let mut copy = map.clone()?;
    copy.clear();
    Ok(copy.is_empty() && !map.is_empty() && tells_pairs(map, ((0, 9), 90), ((1, 9), 19)))
}

#[test]
fn pairs_come_in_rising_order(rt: HostRuntime) {
    assert!(rt; orders_pairs(&mut PairMap::new(rt.alloc())) == Ok(true));
}

/// Adds to a value whose owner shares it with others.
fn add(value: &mut Shared<u32>, more: u32) -> Result<(), AllocError> {
    let value = value.write()?;
    *value = value.saturating_add(more);
    Ok(())
}

/// Whether each owner of a value has its own where others have written theirs.
fn keep_their_values(first: &mut Shared<u32>) -> Result<bool, AllocError> {
    let before = first.share()?;
    add(first, 5)?;
    let second = first.clone()?;
    add(first, 1)?;
    let mut third = second.share()?;
    add(&mut third, 3)?;
    Ok([*before.get(), *first.get(), *second.get(), *third.get()] == [0, 6, 5, 8])
}

#[test]
fn another_owner_keeps_its_value(rt: HostRuntime) {
    assert!(rt; keep_their_values(&mut Shared::new(rt.alloc(), 0u32)) == Ok(true));
}

fn copied<T: Exact>(value: &T) -> Result<T, AllocError> {
    value.clone()
}

/// Whether plain values are equal to their copies.
fn copies_plain_values() -> Result<bool, AllocError> {
    let numbers = copied(&(1u16, 2u64))? == (1, 2) && copied(&9usize)? == 9;
    Ok(numbers && copied(&true)?)
}

/// Whether a sequence is equal to its copy, and a map that has that copy to its own.
fn copies_both(
    nested: &Sequence<(Option<u8>, i32)>,
    map: &mut NumberMap<Sequence<(Option<u8>, i32)>>,
) -> Result<bool, AllocError> {
    let same = copied(nested)?;
    let equal = same == *nested;
    map.insert(1, same)?;
    Ok(equal && copied(&*map)?.len() == 1)
}

/// Whether each value is.
fn copies_values(alloc: Global) -> Result<bool, AllocError> {
    let mut nested = Sequence::new(alloc);
    nested.push((Some(3), -4))?;
    Ok(copies_both(&nested, &mut NumberMap::new(alloc))? && copies_plain_values()?)
}

#[test]
fn an_exact_clone_is_equal(rt: HostRuntime) {
    assert!(rt; copies_values(rt.alloc()) == Ok(true));
}
