// Where lanes start: at the inside, walkable ring cells of their resource.
#![tactic(auto)]

mod ringbox;
mod stretch;

ghost use Rattle.std.specs.Prelude.{◌≡◌, ◌/◌, length};
ghost use Rattle.walkgraph.specs.Painting.{rectangle};
ghost use Rattle.walkgraph.specs.Ring.{body, ring_box};
ghost use Rattle.lane.specs.Levels.{level_at};
ghost use Rattle.start.specs.Hits.{started_levels, ring_hit, lanes_hit, LaneRoom, LanesRoom};

use rings::ring;
use window::record::Window;

// Starts the lane of one resource.
fn start_lane(
    lanes: &mut [i16],
    walk: &[u8],
    rows: &[u16],
    resources: &[i32],
    window: Window,
    width: usize,
    height: usize,
    lane: usize,
)
    requires { LaneRoom window (length lanes.old) (length walk.now) rows.now width height resources.now lane }
    ensures { level_at lanes.new ≡ started_levels (level_at lanes.old) (ring_hit window walk.now rows.now
        (ring_box width height (rectangle resources.now lane)) (body (rectangle resources.now lane)) lane) }
{
    let ring = ring::ring_at(resources, lane, width, height).unwrap();
    ringbox::start_ring(lanes, walk, rows, window, ring, lane);
}

// Starts the lanes of all resources.
pub fn start_lanes(
    lanes: &mut [i16],
    walk: &[u8],
    rows: &[u16],
    resources: &[i32],
    window: Window,
    width: usize,
    height: usize,
)
    requires { LanesRoom window (length lanes.old) (length walk.now) rows.now width height resources.now }
    ensures { level_at lanes.new ≡ started_levels (level_at lanes.old)
        (lanes_hit window walk.now rows.now width height resources.now (length resources.now / 4)) }
{
    for lane in 0..resources.len() / 4 {
        start_lane(lanes, walk, rows, resources, window, width, height, lane);
    }
}
