// One row, both ways.
ghost use Rattle.std.specs.Prelude.{◌*◌, length};
ghost use Rattle.lane.specs.Levels.{level_at, LaneCount};
ghost use Rattle.ways.specs.Row.{RowDone};
ghost use Rattle.ways.specs.Buffers.{Gates, flag_at, RowFits};

// Both ways over count cells: first is the index of the first cell, feeding that of the cell that feeds it. Where the way out changed
// nothing, a row that is not fresh is closed along itself, and the way back would change nothing either.
fn both<const LANES: usize>(
    lanes: &mut [i16],
    flags: &[u8],
    gates: &[i16; 32],
    first: usize,
    feeding: usize,
    count: usize,
    down: bool,
    fresh: bool,
) -> bool
    requires { Gates gates.now × LaneCount LANES × RowFits LANES first feeding count (length lanes.old) (length flags.now) }
    ensures { RowDone LANES (flag_at flags.now) down (first * LANES) (feeding * LANES) first count
        (level_at lanes.old) (level_at lanes.new) fresh result }
{
    if rowways::out::<LANES>(lanes, flags, gates, first, feeding, count, down) {
        rowways::back::<LANES>(lanes, flags, gates, first + count, count);
        return true;
    }
    if fresh {
        return rowways::back::<LANES>(lanes, flags, gates, first + count, count);
    }
    false
}

// The same at a lane count of 8 or 16.
pub fn relax(
    lanes: &mut [i16],
    flags: &[u8],
    gates: &[i16; 32],
    lane_count: usize,
    first: usize,
    feeding: usize,
    count: usize,
    down: bool,
    fresh: bool,
) -> bool
    requires { Gates gates.now × LaneCount lane_count × RowFits lane_count first feeding count (length lanes.old) (length flags.now) }
    ensures { RowDone lane_count (flag_at flags.now) down (first * lane_count) (feeding * lane_count) first count
        (level_at lanes.old) (level_at lanes.new) fresh result }
{
    // Stays: "the lane count is a value" (document 01), so one place chooses the code for it.
    if lane_count == 8 {
        return both::<8>(lanes, flags, gates, first, feeding, count, down, fresh);
    }
    both::<16>(lanes, flags, gates, first, feeding, count, down, fresh)
}
