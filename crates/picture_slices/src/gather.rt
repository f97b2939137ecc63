//! Tops in runs of one home, at most eight.

ghost use Rattle.std.specs.Prelude.{◌≡◌, ◌≤◌, length, IfOk, OnOk};
ghost use Rattle.picture_slices.specs.Gathered.{after_runs};
ghost use Rattle.picture_slices.specs.Slices.{top_slices};

use crate::run::TopRun;
use containers::Sequence;
use primitives::Top;
use slice_rules::same_home;
use std::alloc::Global;
use wr_geom::NoMemory;

/// How many slices there are at most.
const MAX_SLICES: usize = 8;

/// Takes one top more: it joins the last run where it has the home of that one, or where there is no room for
/// another run, and then that run has no home; else it begins a run.
fn add(alloc: Global, runs: &mut Vec<TopRun>, top: Top) -> Result<(), NoMemory>
    requires { length runs.old.items ≤ 8 }
    ensures value { OnOk result (runs.new.items ≡ after_runs 7 runs.old.items top) }
    ensures room { OnOk result (length runs.new.items ≤ 8) }
{
    let count = runs.len();
    match runs.pop() {
        None => runs.push(TopRun::lone_run(alloc, top)?)?,
        Some(last) => {
            if same_home(last.home, top.scroll) {
                runs.push(last.with_top(top)?)?;
            } else if count < MAX_SLICES {
                runs.push(last)?;
                runs.push(TopRun::lone_run(alloc, top)?)?;
            } else {
                runs.push(last.without_home().with_top(top)?)?;
            }
        }
    }
    Ok(())
}

/// The runs of which each is a slice, in order.
pub(crate) fn gathered(alloc: Global, tops: Sequence<Top>) -> Result<Vec<TopRun>, NoMemory>
    ensures { IfOk result (λ runs. runs.items ≡ top_slices tops) }
{
    let mut runs = Vec::new(alloc);
    for top in tops.into_vec() {
        add(alloc, &mut runs, top)?;
    }
    Ok(runs)
}
