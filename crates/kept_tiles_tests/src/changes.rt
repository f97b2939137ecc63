//! Slices that change from frame to frame, shown by kept tiles and drawn anew.

use crate::bench::{Bench, on_a_bench};
use crate::made::colour;
use crate::pixels::are_right;
use crate::plans::{Plan, planned};
use crate::rolls::Rolls;
use wr_geom::NoMemory;

/// How many frames are shown.
const FRAMES: u8 = 120;

/// A rolled plan.
fn rolled_plan(rolls: &mut Rolls) -> Plan {
    let mut seeds = [0; 12];
    for i in 0..12 {
        seeds[i] = rolls.below(250);
    }
    Plan {
        seeds,
        origin: (rolls.below(200), rolls.below(200)),
        left: 0,
        bottom: 100,
    }
}

/// Changes an entry, where a slice lies, or what it shows.
fn change(plan: &mut Plan, rolls: &mut Rolls) {
    match rolls.below(6) {
        0 => plan.origin.0 = rolls.below(200),
        1 => plan.origin.1 = plan.origin.1.wrapping_add(1) % 200,
        2 => plan.left = rolls.below(100),
        3 => plan.bottom = rolls.below(101),
        _ => plan.seeds[usize::from(rolls.below(12))] = rolls.below(250),
    }
}

/// Stores another image in one of eight frames.
fn change_image(bench: &mut Bench, rolls: &mut Rolls) -> Result<(), NoMemory> {
    if rolls.below(8) > 0 {
        return Ok(());
    }
    let [b, g, r, a] = rolls.colour();
    if bench.store_image(colour(b, g, r, a)).is_err() {
        return Err(NoMemory);
    }
    Ok(())
}

/// Whether the slices of two plans are right once they are shown.
fn is_frame_right(bench: &mut Bench, below: &Plan, above: &Plan) -> Result<bool, NoMemory> {
    let generation = bench.generation();
    let slices = [
        planned(bench.alloc(), below, 0, generation)?,
        planned(bench.alloc(), above, 1, generation)?,
    ];
    if bench.show(&slices)? == None {
        return Ok(false);
    }
    are_right(bench, &slices)
}

/// Whether each of many frames is right, each with a change or two. Some tiles are given up after every third frame.
fn stay_right(bench: &mut Bench) -> Result<bool, NoMemory> {
    let mut rolls = Rolls::new(7);
    let (mut below, mut above) = (rolled_plan(&mut rolls), rolled_plan(&mut rolls));
    for frame in 0..FRAMES {
        change_image(bench, &mut rolls)?;
        change(&mut below, &mut rolls);
        if frame % 2 == 0 {
            change(&mut above, &mut rolls);
        }
        if !is_frame_right(bench, &below, &above)? {
            return Ok(false);
        }
        if frame % 3 == 0 {
            bench.trim(u32::from(rolls.below(12)));
        }
    }
    Ok(true)
}

#[test]
fn kept_tiles_have_the_pixels_of_a_fresh_drawing(rt: HostRuntime) {
    assert!(rt; on_a_bench(rt.alloc(), stay_right) == Ok(true));
}

/// Whether a frame is right that is shown again where memory runs out at first.
fn show_after_all(bench: &mut Bench) -> Result<bool, NoMemory> {
    let mut rolls = Rolls::new(3);
    let slices = [
        planned(bench.alloc(), &rolled_plan(&mut rolls), 0, None)?,
        planned(bench.alloc(), &rolled_plan(&mut rolls), 1, None)?,
    ];
    if bench.show(&slices).is_err() {
        bench.show(&slices)?;
    }
    are_right(bench, &slices)
}

#[test]
fn a_frame_is_shown_again_after_memory_ran_out(rt: HostRuntime) {
    let shown = on_a_bench(rt.alloc(), show_after_all);
    assert!(rt; shown == Ok(true) || shown == Err(NoMemory));
}
