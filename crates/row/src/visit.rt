// The visit of one row: skipped where the row that feeds it has the version that it last pulled.
ghost use Rattle.std.specs.Prelude.{◌≡◌, ◌+◌, ◌^◌, ◌<◌, length};
ghost use Rattle.row.specs.Visits.{Visited, row_at, feed_at};
ghost use Rattle.row.specs.Buffers.{as_ground, state_of, VisitFits};
ghost use Rattle.ways.specs.Buffers.{Gates};

use crate::row;
use pulls;

// What the sweeps of a run read and never write: the lanes of a cell, the cells of a row with padding, the rows of the window,
// the flag byte of each cell, and the row intervals, two numbers a row.
#[derive(Clone, Copy)]
pub struct Ground<'a> {
    pub lane_count: usize,
    pub stride: usize,
    pub height: usize,
    pub flags: &'a [u8],
    pub rows: &'a [u16],
}

// The row of a sweep's turn, counted with padding.
// Stays: "a direction in the call" (document 01), here and below.
pub fn row_at(down: bool, height: usize, turn: usize) -> usize
    requires { (turn < height) × (height + 1 < 2 ^ 64) }
    ensures { result ≡ row_at down height turn }
{
    if down { turn + 1 } else { height - turn }
}

// The row that feeds it.
pub fn feed_at(down: bool, height: usize, turn: usize) -> usize
    requires { (turn < height) × (height + 1 < 2 ^ 64) }
    ensures { result ≡ feed_at down height turn }
{
    if down { turn } else { height - turn + 1 }
}

// One row: whether it, or a row before it, changed.
pub fn visit(
    lanes: &mut [i16],
    versions: &mut [u32],
    pulled: &mut [u32],
    ground: Ground,
    gates: &[i16; 32],
    own: usize,
    feed: usize,
    down: bool,
    fresh: bool,
    changed: bool,
) -> bool
    requires { Gates gates.now × VisitFits ground.lane_count ground.stride own feed ground.rows.now
        (length lanes.old) (length ground.flags.now) (length versions.old) (length pulled.old) }
    ensures { Visited (as_ground ground.entry) down fresh own feed
        (state_of lanes.old versions.old pulled.old changed) (state_of lanes.new versions.new pulled.new result) }
{
    let a = usize::from(ground.rows[2 * own - 2]);
    let b = usize::from(ground.rows[2 * own - 1]);
    if b <= a {
        return changed;
    }
    if pulls::skips(pulled, own, versions[feed]) {
        return changed;
    }
    let first = own * ground.stride + a;
    let feeding = feed * ground.stride + a;
    if row::relax(
        lanes,
        ground.flags,
        gates,
        ground.lane_count,
        first,
        feeding,
        b - a,
        down,
        fresh,
    ) {
        versions[own] = versions[own].wrapping_add(1);
        return true;
    }
    changed
}
