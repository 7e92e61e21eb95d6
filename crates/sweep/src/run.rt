// One sweep by its direction, and the alternating sweeps up to the first quiet one after the first.
ghost use Rattle.std.specs.Prelude.{false, length};
ghost use Rattle.sweep.specs.Sweeps.{Turns, OneSweep, Ended};
ghost use Rattle.row.specs.Buffers.{as_ground, state_of};
ghost use Rattle.sweep.specs.Buffers.{run_of, SweepFits, RunFits, CanRun};

use quietsweep;
use row::visit;
use row::visit::Ground;
use ways::gate;

// One sweep over the rows of a window: whether a lane changed.
pub fn sweep(
    lanes: &mut [i16],
    versions: &mut [u32],
    pulled: &mut [u32],
    ground: Ground,
    down: bool,
    fresh: bool,
) -> bool
    requires { SweepFits ground.lane_count ground.stride ground.height ground.rows.now
        (length lanes.old) (length ground.flags.now) (length versions.old) (length pulled.old) }
    ensures { Turns (as_ground ground.entry) down fresh ground.entry.height
        (state_of lanes.old versions.old pulled.old false) ground.entry.height (state_of lanes.new versions.new pulled.new result) }
{
    let gates = gate::gates();
    let mut changed = false;
    for turn in 0..ground.height {
        changed = visit::visit(
            lanes,
            versions,
            pulled,
            ground,
            &gates,
            visit::row_at(down, ground.height, turn),
            visit::feed_at(down, ground.height, turn),
            down,
            fresh,
            changed,
        );
    }
    changed
}

// One of the alternating sweeps: the even ones go down, and rows are fresh in number 0.
fn alternate(
    lanes: &mut [i16],
    versions: &mut [u32],
    pulled_down: &mut [u32],
    pulled_up: &mut [u32],
    ground: Ground,
    number: usize,
) -> bool
    requires { RunFits ground.lane_count ground.stride ground.height ground.rows.now
        (length lanes.old) (length ground.flags.now) (length versions.old) (length pulled_down.old) (length pulled_up.old) }
    ensures { OneSweep (as_ground ground.entry) ground.entry.height number
        (run_of lanes.old versions.old pulled_down.old pulled_up.old)
        (run_of lanes.new versions.new pulled_down.new pulled_up.new) result }
{
    if quietsweep::down(number) {
        return sweep(lanes, versions, pulled_down, ground, true, number == 0);
    }
    sweep(lanes, versions, pulled_up, ground, false, false)
}

// The alternating sweeps, down first: how many, the quiet one included.
pub fn run(
    lanes: &mut [i16],
    versions: &mut [u32],
    pulled_down: &mut [u32],
    pulled_up: &mut [u32],
    ground: Ground,
) -> usize
    requires { CanRun ground.lane_count ground.stride ground.height
        lanes.old ground.flags.now ground.rows.now versions.old pulled_down.old pulled_up.old }
    ensures { Ended (as_ground ground.entry) ground.entry.height
        (run_of lanes.old versions.old pulled_down.old pulled_up.old)
        (run_of lanes.new versions.new pulled_down.new pulled_up.new) result }
{
    let mut count: usize = 0;
    loop {
        let changed = alternate(lanes, versions, pulled_down, pulled_up, ground, count);
        count += 1;
        if quietsweep::ends(changed, count) {
            break count;
        }
    }
}
