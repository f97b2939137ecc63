//! Covering a part of a row: an open interval is cut where the part begins and ends.

ghost use Rattle.std.specs.Prelude.{◌≡◌, ◌≤◌, ◌<◌, ◌+◌, ℕ, length, None};
ghost use Rattle.std.specs.Vec.{vec_capacity};
ghost use Rattle.batching.specs.Intervals.{interval_at, end_at, begin_at, last_end, depth_in, AreIntervals, IsFrom, IsGiven, IsSameRow};

use crate::intervals::{Interval, Spot, spot_at};

/// Where an interval begins.
fn begin_of(intervals: &[Interval], i: usize) -> u16
    requires { i ≤ length intervals.now }
    ensures { result ≡ begin_at intervals.now i }
{
    if i == 0 { 0 } else { intervals[i - 1].end }
}

/// Cuts the interval of a place in two, unless it begins there. The number of the one that begins there comes back.
fn cut(intervals: &mut Vec<Interval>, spot: Spot) -> usize
    requires are { AreIntervals intervals.old.items }
    requires room { last_end intervals.old.items ≤ vec_capacity intervals.old }
    requires from { IsFrom intervals.old.items spot.interval spot.x }
    requires inside { spot.x < last_end intervals.old.items }
    ensures row { IsSameRow intervals.old.items intervals.new.items }
    ensures capacity { vec_capacity intervals.old ≤ vec_capacity intervals.new }
    ensures depths { (k : ℕ) → depth_in intervals.new.items k ≡ depth_in intervals.old.items k }
    ensures within { result < length intervals.new.items }
    ensures begins { begin_at intervals.new.items result ≡ spot.x }
    ensures interval { interval_at intervals.new.items result ≡ interval_at intervals.old.items spot.interval }
{
    let i = spot.interval;
    if begin_of(intervals, i) >= spot.x {
        return i;
    }
    let front = Interval {
        end: spot.x,
        depth: intervals[i].depth,
    };
    intervals.insert(i, front).unwrap();
    i + 1
}

/// Gives a depth to an open interval, or to its places before `end` alone.
fn give(intervals: &mut Vec<Interval>, i: usize, end: u16, depth: u32)
    requires are { AreIntervals intervals.old.items }
    requires room { last_end intervals.old.items ≤ vec_capacity intervals.old }
    requires within { i < length intervals.old.items }
    requires uncovered { (interval_at intervals.old.items i).depth ≡ None }
    requires left { begin_at intervals.old.items i < end }
    requires right { end ≤ end_at intervals.old.items i }
    ensures row { IsSameRow intervals.old.items intervals.new.items }
    ensures capacity { vec_capacity intervals.old ≤ vec_capacity intervals.new }
    ensures given { IsGiven intervals.old.items intervals.new.items (begin_at intervals.old.items i) end depth }
    ensures from { IsFrom intervals.new.items (i + 1) end }
{
    let front = Interval {
        end,
        depth: Some(depth),
    };
    if end == intervals[i].end {
        intervals[i] = front;
        return;
    }
    intervals.insert(i, front).unwrap();
}

/// Covers the places of one interval, from `spot` to before `to` at most, and moves on.
fn cover_one(intervals: &mut Vec<Interval>, spot: Spot, to: u16, depth: u32) -> Spot
    requires are { AreIntervals intervals.old.items }
    requires room { last_end intervals.old.items ≤ vec_capacity intervals.old }
    requires from { IsFrom intervals.old.items spot.interval spot.x }
    requires order { spot.x < to }
    requires inside { to ≤ last_end intervals.old.items }
    ensures row { IsSameRow intervals.old.items intervals.new.items }
    ensures capacity { vec_capacity intervals.old ≤ vec_capacity intervals.new }
    ensures given { IsGiven intervals.old.items intervals.new.items spot.x result.x depth }
    ensures moves { spot.x < result.x }
    ensures stops { result.x ≤ to }
    ensures from { result.x < to → IsFrom intervals.new.items result.interval result.x }
{
    let interval = intervals[spot.interval];
    let end = interval.end.min(to);
    if interval.depth.is_some() {
        return Spot {
            interval: spot.interval + 1,
            x: end,
        };
    }
    let i = cut(intervals, spot);
    give(intervals, i, end, depth);
    Spot {
        interval: i + 1,
        x: end,
    }
}

/// Gives a depth to each open place from `x0` to before `x1`.
pub fn cover_part(intervals: &mut Vec<Interval>, x0: u16, x1: u16, depth: u32)
    requires are { AreIntervals intervals.old.items }
    requires room { last_end intervals.old.items ≤ vec_capacity intervals.old }
    requires order { x0 ≤ x1 }
    requires inside { x1 ≤ last_end intervals.old.items }
    ensures row { IsSameRow intervals.old.items intervals.new.items }
    ensures capacity { vec_capacity intervals.old ≤ vec_capacity intervals.new }
    ensures given { IsGiven intervals.old.items intervals.new.items x0 x1 depth }
{
    let mut spot = spot_at(intervals, x0);
    while spot.x < x1 {
        spot = cover_one(intervals, spot, x1, depth);
    }
}
