// The two ways along one row, at either lane count.
#![tactic(auto)]

ghost use Rattle.std.specs.Prelude.{length};
ghost use Rattle.lane.specs.Levels.{level_at, LaneCount};
ghost use Rattle.ways.specs.Row.{OutDone, BackDone};
ghost use Rattle.ways.specs.Buffers.{Gates, flag_at, RowFits, BackFits};

use ways::{cell, gate};

// The way out, left to right over count cells: first is the index of the first cell, feeding that of the cell that
// feeds it. Whether a lane changed.
pub fn out<const LANES: usize>(
    lanes: &mut [i16],
    flags: &[u8],
    gates: &[i16; 32],
    first: usize,
    feeding: usize,
    count: usize,
    down: bool,
) -> bool
    requires { Gates gates.now × LaneCount LANES × RowFits LANES first feeding count (length lanes.old) (length flags.now) }
    ensures { OutDone LANES (flag_at flags.now) down first feeding count (level_at lanes.old) (level_at lanes.new) result }
{
    let mut same = [-1i16; LANES];
    let mut beside = strip::load::<LANES>(lanes, (first - 1) * LANES);
    for n in 0..count {
        let i = (first + n) * LANES;
        let o = (feeding + n) * LANES;
        let new = cell::out(lanes, gates, i, o, LANES, flags[first + n], down, beside);
        let still = strip::put(lanes, i, new, same);
        same = still;
        beside = new;
    }
    strip::changed(same)
}

// The way back, right to left over count cells: past is the index of the cell past the last.
pub fn back<const LANES: usize>(
    lanes: &mut [i16],
    flags: &[u8],
    gates: &[i16; 32],
    past: usize,
    count: usize,
) -> bool
    requires { Gates gates.now × LaneCount LANES × BackFits LANES past count (length lanes.old) (length flags.now) }
    ensures { BackDone LANES (flag_at flags.now) past count (level_at lanes.old) (level_at lanes.new) result }
{
    let mut same = [-1i16; LANES];
    let mut beside = strip::load::<LANES>(lanes, past * LANES);
    for n in 0..count {
        let cell = past - 1 - n;
        let i = cell * LANES;
        let new = strip::back(lanes, gates, i, beside, gate::place(flags[cell]));
        let still = strip::put(lanes, i, new, same);
        same = still;
        beside = new;
    }
    strip::changed(same)
}
