// The ground of a field: its walk bytes, flags and row intervals, and its lanes before the first sweep.
#![tactic(auto)]

ghost use Rattle.std.specs.Prelude.{◌≡◌, ◌/◌, length};
ghost use Rattle.cells.specs.Boxes.{box_of};
ghost use Rattle.lane.specs.Levels.{level_at};
ghost use Rattle.window.specs.Fills.{entries};
ghost use Rattle.walkbytes.specs.Filled.{walk_filled};
ghost use Rattle.flags.specs.Flags.{flags_filled};
ghost use Rattle.intervals.specs.Intervals.{rows_filled};
ghost use Rattle.start.specs.Hits.{started_levels, lanes_hit};
ghost use Rattle.grounds.specs.Grounds.{GroundFits, BeginFits, unreachable_levels};

use intervals::rows;
use plan::site::Site;
use start;
use walkbytes::{maprows, painting};

// The walk bytes and the flags of the window.
pub fn ground(site: Site, cells: &[u8], blockers: &[i32], walk: &mut [u8], flags: &mut [u8])
    requires { GroundFits site cells.now (length walk.old) (length flags.old) }
    ensures { (entries walk.new ≡ walk_filled site.window site.width site.height cells.now blockers.now (entries walk.old))
        × (entries flags.new ≡ flags_filled site.window (entries walk.new) (entries flags.old)) }
{
    let window = site.window;
    let count = window.padded();
    walk[..count].fill(0);
    maprows::copy_rows(cells, walk, window, site.width);
    painting::paint(walk, blockers, window, site.width, site.height);
    flags[..count].fill(0);
    flags::flag_rows(walk, flags, window);
}

// The row intervals, and the lanes before the first sweep.
pub fn begin(site: Site, resources: &[i32], lanes: &mut [i16], walk: &[u8], rows: &mut [u16])
    requires { BeginFits site resources.now (length lanes.old) (length walk.now) (length rows.old) }
    ensures { (entries rows.new ≡ rows_filled site.window (box_of site.sources) (box_of site.targets) (entries rows.old))
        × (level_at lanes.new ≡ started_levels (unreachable_levels site.window (level_at lanes.old))
        (lanes_hit site.window walk.now rows.new site.width site.height resources.now (length resources.now / 4))) }
{
    let window = site.window;
    rows::write_rows(rows, window, site.sources, site.targets);
    unreachable::fill(lanes, window.padded() * window.lanes);
    start::start_lanes(
        lanes,
        walk,
        rows,
        resources,
        window,
        site.width,
        site.height,
    );
}
