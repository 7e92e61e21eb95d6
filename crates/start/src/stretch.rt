// The lanes that start: half cost 0 in the walkable cells of a stretch that are not in the body.
ghost use Rattle.std.specs.Prelude.{◌≡◌, length};
ghost use Rattle.lane.specs.Levels.{level_at};
ghost use Rattle.cells.specs.Boxes.{box_of};
ghost use Rattle.start.specs.Hits.{started_levels, cells_hit, Cells};

use cells::boxes::CellBox;
use lane::value;
use ringcell;

// Starts one lane in count cells of row y, from column x on; place is that of the first among the window's cells.
pub fn start_cells(
    lanes: &mut [i16],
    walk: &[u8],
    body: CellBox,
    each: usize,
    lane: usize,
    x: usize,
    y: usize,
    place: usize,
    count: usize,
)
    requires { Cells (length lanes.old) (length walk.now) each lane x place count }
    ensures { level_at lanes.new ≡ started_levels (level_at lanes.old) (cells_hit each walk.now (box_of body) lane x y place count) }
{
    for n in 0..count {
        let at = (place + n) * each + lane;
        lanes[at] = value::started(
            lanes[at],
            ringcell::starts(walk[place + n], ringcell::covers(body, x + n, y)),
        );
    }
}
