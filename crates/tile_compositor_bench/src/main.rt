//! With a word as argument, prints for frames of 1,280 by 800 pixels from two slices how long the copies of a frame's bytes
//! take, and how long `compose` takes, in microseconds of processor time for `ROUNDS` of each. Both are taken in turns.
#![tactic(auto)]

ghost use Rattle.std.specs.Prelude.{◌≡◌, None, IfOk};
ghost use Rattle.tile_grid.specs.Grids.{HasTileRoom};
ghost use Rattle.tile_compositor.specs.Composition.{CanAllBeShown};
ghost use Rattle.black_tiles.specs.Black.{AreBlack, FitFrame};
ghost use Rattle.tile_compositor_bench.specs.Measured.{AreFrame, frame_tiles};

use black_tiles::{keep_black, slice_key, two_slices};
use blend_rules::Px;
use span_kernels::{Plane, Planes, copy, know_planes, part_laws};
use std::alloc::Global;
use std::time::{CpuClock, Duration};
use std::{env, io};
use tile_compositor::{Frame, Placed, compose};
use tile_grid::TileSides;
use tile_store::TileStore;
use wr_geom::{NoMemory, Rect};

/// The sides of the frame, in pixels.
const WIDTH: u16 = 1280;

const HEIGHT: u16 = 800;

/// The side of each tile, in pixels.
const SIDE: u16 = 256;

/// How often each frame is composed, and the bytes are copied, in a turn.
const ROUNDS: u16 = 20;

/// How many turns are taken.
const TURNS: u16 = 21;

const WHITE: Px = Px {
    b: 255,
    g: 255,
    r: 255,
    a: 255,
};

/// The sides of each tile.
fn tile_sides() -> TileSides
    ensures { result ≡ frame_tiles }
{
    TileSides {
        width: SIDE,
        height: SIDE,
    }
}

/// The part of a slice that the frame shows, and 100 pixels below it.
fn whole() -> Rect
    ensures { HasTileRoom result }
{
    Rect::new(0, 0, i32::from(WIDTH), i32::from(HEIGHT) + 100).unwrap()
}

/// So many rows at its top.
fn header(rows: u8) -> Rect
    ensures { HasTileRoom result }
{
    Rect::new(0, 0, i32::from(WIDTH), i32::from(rows)).unwrap()
}

/// Copies the bytes of one plane.
fn copy_plane(from: &Planes, to: &mut Planes, p: Plane)
    requires from { AreFrame from.now }
    requires to { AreFrame to.old }
    ensures { AreFrame to.new }
{
    part_laws();
    know_planes(to);
    for y in 0..HEIGHT {
        copy(to.row_mut(p, y, 0, WIDTH), from.row(p, y));
    }
}

/// Copies the bytes of a frame `ROUNDS` times.
fn copy_often(from: &Planes, to: &mut Planes)
    requires from { AreFrame from.now }
    requires to { AreFrame to.old }
    ensures { AreFrame to.new }
{
    for _ in 0..ROUNDS {
        copy_plane(from, to, Plane::B);
        copy_plane(from, to, Plane::G);
        copy_plane(from, to, Plane::R);
        copy_plane(from, to, Plane::A);
    }
}

/// Composes a frame `ROUNDS` times.
fn compose_often(store: &TileStore<u32>, placed: &[Placed], frame: &mut Frame)
    requires tiles { CanAllBeShown frame_tiles store.now.tiles }
    requires placed { FitFrame 1280 800 placed.now }
    requires frame { AreFrame frame.old.planes }
    ensures { AreFrame frame.new.planes }
{
    for _ in 0..ROUNDS {
        compose(store, placed, SIDE, SIDE, WHITE, frame);
    }
}

/// Keeps opaque tiles of slice 0 everywhere, and tiles of slice 1 with an alpha in a part.
fn keep_tiles(
    store: &mut TileStore<u32>,
    alloc: Global,
    part: Rect,
    alpha: u8,
) -> Result<(), NoMemory>
    requires part { HasTileRoom part }
    requires closed { store.old.window ≡ None }
    requires black { AreBlack frame_tiles store.old.tiles }
    ensures black { AreBlack frame_tiles store.new.tiles }
    ensures shown { IfOk result (λ _. CanAllBeShown frame_tiles store.new.tiles) }
{
    let sides = tile_sides();
    keep_black(store, alloc, sides, slice_key(0), whole(), 255)?;
    keep_black(store, alloc, sides, slice_key(1), part, alpha)
}

/// A store with those tiles.
fn kept(alloc: Global, part: Rect, alpha: u8) -> Result<TileStore<u32>, NoMemory>
    requires { HasTileRoom part }
    ensures { IfOk result (λ store. CanAllBeShown frame_tiles store.tiles) }
{
    let mut store = TileStore::new(alloc)?;
    keep_tiles(&mut store, alloc, part, alpha)?;
    Ok(store)
}

/// Planes of the frame's sides.
fn blank(alloc: Global) -> Result<Planes, NoMemory>
    ensures { IfOk result (λ planes. AreFrame planes) }
{
    Ok(Planes::new(alloc, WIDTH, HEIGHT)?)
}

/// What a turn's copies and its frames take in all.
#[derive(Clone, Copy, Debug)]
struct Turn {
    copied: Duration,
    composed: Duration,
}

/// Takes a turn.
fn take_turn(
    rt: &HostRuntime,
    store: &TileStore<u32>,
    placed: &[Placed],
    from: &Planes,
    to: &mut Planes,
    frame: &mut Frame,
) -> io::Result<Turn>
    requires tiles { CanAllBeShown frame_tiles store.now.tiles }
    requires placed { FitFrame 1280 800 placed.now }
    requires from { AreFrame from.now }
    requires to { AreFrame to.old }
    requires frame { AreFrame frame.old.planes }
    ensures to { AreFrame to.new }
    ensures frame { AreFrame frame.new.planes }
{
    let start = rt.process_cpu_time()?;
    copy_often(from, to);
    let middle = rt.process_cpu_time()?;
    compose_often(store, placed, frame);
    let end = rt.process_cpu_time()?;
    Ok(Turn {
        copied: middle.saturating_sub(start),
        composed: end.saturating_sub(middle),
    })
}

/// Takes turns, and prints each one's times in microseconds: of `ROUNDS` copies, and of `ROUNDS` frames.
fn time_frames(
    rt: &HostRuntime,
    name: &str,
    store: &TileStore<u32>,
    placed: &[Placed],
) -> io::Result<()>
    requires tiles { CanAllBeShown frame_tiles store.now.tiles }
    requires placed { FitFrame 1280 800 placed.now }
{
    let (Ok(from), Ok(mut to), Ok(planes)) = (
        blank(rt.alloc()),
        blank(rt.alloc()),
        blank(rt.alloc()),
    ) else {
        return Ok(());
    };
    let mut frame = Frame::new(planes);
    for _ in 0..TURNS {
        let turn = take_turn(rt, store, placed, &from, &mut to, &mut frame)?;
        let copied = turn.copied.as_nanos() / 1000;
        let composed = turn.composed.as_nanos() / 1000;
        println!(rt; "{name} {copied} {composed}")?;
    }
    Ok(())
}

/// Times frames of a whole opaque slice under one that has tiles with an alpha in a part.
fn time_slices(rt: &HostRuntime, name: &str, part: Rect, alpha: u8) -> io::Result<()>
    requires { HasTileRoom part }
{
    let Ok(store) = kept(rt.alloc(), part, alpha) else {
        return Ok(());
    };
    let placed = two_slices((WIDTH, HEIGHT), ((0, 0), (0, -90)), (whole(), whole()));
    time_frames(rt, name, &store, &placed)
}

fn main(rt: HostRuntime) -> io::Result<()> {
    // Without a word nothing is written, since times differ from run to run.
    if env::args(&rt)?.count() < 2 {
        return Ok(());
    }
    time_slices(&rt, "none", header(0), 255)?;
    time_slices(&rt, "header", header(255), 255)?;
    time_slices(&rt, "opaque", whole(), 255)?;
    time_slices(&rt, "translucent", whole(), 128)
}
