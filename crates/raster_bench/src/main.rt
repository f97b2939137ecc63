//! With a word as argument, prints the processor time in picoseconds that `tile_raster::draw` takes for each pixel of
//! 1280 by 800 that an entry covers, and what an empty list takes.
#![tactic(auto)]

ghost use Rattle.std.specs.Prelude.{◌≡◌, ◌≤◌, ◌<◌, ◌^◌, IsTrue, length};
ghost use Rattle.primitives.specs.Stacks.{balanced, is_shallow};

mod subjects;

use crate::subjects::{HEIGHT, WIDTH, circle, glyph, image, no_clips, stored, whole};
use blend_rules::{Mode, Px};
use clip_masks::Clip;
use containers::Sequence;
use image_store::Store;
use primitives::{Entry, Kind, Primitive};
use span_kernels::Planes;
use std::time::CpuClock;
use std::{env, io};
use tile_raster::{Scratch, draw};
use wr_geom::Point;

/// How often each list is drawn.
const ROUNDS: u32 = 50;

const CORNER: Point = Point { x: 0, y: 0 };

const OPAQUE: Px = Px {
    b: 30,
    g: 90,
    r: 200,
    a: 255,
};

const TRANSLUCENT: Px = Px {
    b: 30,
    g: 60,
    r: 90,
    a: 128,
};

/// What lists are drawn with.
#[derive(Drop)]
struct Stage {
    store: Store,
    planes: Planes,
    scratch: Scratch,
}

/// Draws a list again and again, and prints the picoseconds for each pixel.
fn time(rt: &HostRuntime, name: &str, entries: &[Entry], stage: &mut Stage) -> io::Result<()>
    requires few { length entries.now < 2 ^ 32 }
    requires balanced { IsTrue (balanced 0 entries.now) }
    requires shallow { IsTrue (is_shallow 64 entries.now) }
    requires wide { stage.old.planes.width ≤ stage.old.scratch.width }
    ensures { stage.new.planes.width ≤ stage.new.scratch.width }
{
    let start = rt.process_cpu_time()?;
    for _ in 0..ROUNDS {
        draw(
            entries,
            &stage.store,
            CORNER,
            &mut stage.planes,
            &mut stage.scratch,
        );
    }
    let spent = rt.process_cpu_time()?.saturating_sub(start);
    let pixels = u128::from(ROUNDS) * u128::from(WIDTH) * u128::from(HEIGHT);
    println!(rt; "{name}: {} ps", spent.as_nanos() * 1000 / pixels)
}

/// Times a primitive of this kind, under clips.
fn time_kind(
    rt: &HostRuntime,
    name: &str,
    kind: Kind,
    clips: Sequence<Clip>,
    stage: &mut Stage,
) -> io::Result<()>
    requires { stage.old.planes.width ≤ stage.old.scratch.width }
    ensures { stage.new.planes.width ≤ stage.new.scratch.width }
{
    let Some(primitive) = Primitive::new(kind, whole(), clips) else {
        return Ok(());
    };
    time(rt, name, &[Entry::Primitive(primitive)], stage)
}

/// Times a group of one opaque solid, at half its opacity.
fn time_group(rt: &HostRuntime, name: &str, mode: Mode, stage: &mut Stage) -> io::Result<()>
    requires { stage.old.planes.width ≤ stage.old.scratch.width }
    ensures { stage.new.planes.width ≤ stage.new.scratch.width }
{
    let clips = no_clips(rt.alloc());
    let Some(primitive) = Primitive::new(Kind::Solid(OPAQUE), whole(), clips) else {
        return Ok(());
    };
    let push = Entry::Push {
        opacity: 128,
        mode,
        clips: no_clips(rt.alloc()),
    };
    let entries = [push, Entry::Primitive(primitive), Entry::Pop];
    time(rt, name, &entries, stage)
}

/// Times each kind of entry.
fn time_all(rt: &HostRuntime, stage: &mut Stage) -> io::Result<()>
    requires { stage.old.planes.width ≤ stage.old.scratch.width }
{
    let alloc = rt.alloc();
    time(rt, "nothing", &[], stage)?;
    time_kind(rt, "opaque", Kind::Solid(OPAQUE), no_clips(alloc), stage)?;
    time_kind(
        rt,
        "translucent",
        Kind::Solid(TRANSLUCENT),
        no_clips(alloc),
        stage,
    )?;
    time_kind(
        rt,
        "opaque in a circle",
        Kind::Solid(OPAQUE),
        circle(alloc)?,
        stage,
    )?;
    time_kind(
        rt,
        "translucent in a circle",
        Kind::Solid(TRANSLUCENT),
        circle(alloc)?,
        stage,
    )?;
    time_kind(rt, "an opaque image", image(1), no_clips(alloc), stage)?;
    time_kind(rt, "a translucent image", image(2), no_clips(alloc), stage)?;
    time_kind(rt, "a glyph", glyph(alloc, OPAQUE)?, no_clips(alloc), stage)?;
    time_group(rt, "a group", Mode::Normal, stage)?;
    time_group(rt, "a group in mode multiply", Mode::Multiply, stage)
}

/// Makes what lists are drawn with, and times each kind of entry with it.
fn run(rt: &HostRuntime) -> io::Result<()> {
    let alloc = rt.alloc();
    let (Ok(store), Ok(planes), Ok(scratch)) = (
        stored(alloc),
        Planes::new(alloc, WIDTH, HEIGHT),
        Scratch::new(alloc, WIDTH),
    ) else {
        return Ok(());
    };
    let mut stage = Stage {
        store,
        planes,
        scratch,
    };
    time_all(rt, &mut stage)
}

fn main(rt: HostRuntime) -> io::Result<()> {
    // Without a word nothing is written, since times differ from run to run.
    if env::args(&rt)?.count() < 2 {
        return Ok(());
    }
    run(&rt)
}
