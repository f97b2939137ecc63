//! With a word as argument, prints how long tops take to be made slices: `solids` or `chains`.
#![tactic(auto)]

ghost use Rattle.std.specs.Prelude.{◌≡◌, ◌<◌, length, IfOk};
ghost use Rattle.clip_masks.specs.declared.clip.Clip.{Clip as ClipValue};
ghost use Rattle.primitives.specs.Tops.{IsCloseRect, AreCloseClips, IsTop, AreTops};

use blend_rules::Px;
use clip_masks::Clip;
use containers::Sequence;
use picture_slices::slices;
use primitives::{Entry, Kind, Primitive, Top};
use slice_rules::Home;
use std::alloc::{AllocError, Global};
use std::time::Instant;
use std::{env, io};
use wr_geom::{Point, Rect};

/// How many tops a picture has.
const TOPS: u32 = 60_000;

/// How often each picture is made.
const ROUNDS: u8 = 20;

/// A rectangle of some pixels, empty for the width 0.
fn rect(width: u8) -> Rect
    ensures { IsCloseRect result }
{
    Rect::new(0, 0, width.into(), 8).unwrap()
}

/// So many rectangle clips, each narrower than the one before.
fn clips(alloc: Global, count: u8) -> Result<Sequence<Clip>, AllocError>
    ensures count { IfOk result (λ cs. length cs ≡ count) }
    ensures close { IfOk result (λ cs. AreCloseClips cs) }
{
    let mut clips = Sequence::new(alloc);
    for k in 0..count {
        clips.push(Clip::of_rect(rect(255 - k)))?;
    }
    Ok(clips)
}

/// No scroll frame for each clip.
fn homes(alloc: Global, count: u8) -> Result<Sequence<Home>, AllocError>
    ensures { IfOk result (λ hs. length hs ≡ count) }
{
    let mut homes = Sequence::new(alloc);
    for _ in 0..count {
        homes.push(None)?;
    }
    Ok(homes)
}

/// A solid under so many clips, which moves with the scroll frame of this number.
fn top(alloc: Global, scroll: u16, count: u8) -> Result<Top, AllocError>
    ensures { IfOk result (λ t. IsTop t) }
{
    let kind = Kind::Solid(Px::CLEAR);
    let solid = Primitive::new(kind, rect(200), clips(alloc, count)?).unwrap();
    let mut entries = Sequence::new(alloc);
    entries.push(Entry::Primitive(solid))?;
    Ok(Top {
        scroll: Some((0, scroll)),
        origin: Point { x: 10, y: -10 },
        homes: homes(alloc, count)?,
        entries,
    })
}

/// Tops in runs of 10,000, each under so many clips.
fn tops(alloc: Global, count: u8) -> Result<Sequence<Top>, AllocError>
    ensures { IfOk result (λ ts. AreTops ts) }
{
    let mut tops = Sequence::new(alloc);
    for k in 0..TOPS {
        tops.push(top(alloc, (k / 10_000) as u16, count)?)?;
    }
    Ok(tops)
}

/// How many nanoseconds one picture's slices take.
fn time_once(rt: &HostRuntime, count: u8) -> io::Result<u64> {
    let Ok(tops) = tops(rt.alloc(), count) else {
        return Ok(0);
    };
    let start = Instant::now(rt)?;
    let _slices = slices(rt.alloc(), tops, rect(200));
    Ok(u64::try_from(start.elapsed(rt)?.as_nanos()).unwrap_or(u64::MAX))
}

/// Makes slices again and again, and prints the nanoseconds for each top.
fn time(rt: &HostRuntime, count: u8) -> io::Result<()> {
    let mut least = u64::MAX;
    for _ in 0..ROUNDS {
        least = least.min(time_once(rt, count)?);
    }
    let each = least / u64::from(TOPS);
    println!(rt; "a solid under {count} clips: {each} ns")
}

fn main(rt: HostRuntime) -> io::Result<()> {
    // Without a word nothing is written, since times differ from run to run.
    let Some(word) = env::args(&rt)?.nth(1) else {
        return Ok(());
    };
    match word.as_str() {
        "solids" => time(&rt, 0),
        "chains" => time(&rt, 8),
        _ => Ok(()),
    }
}
