// Where one lane starts: in the rows of the ring box of its resource, at the cells that are inside and walkable.
ghost use Rattle.std.specs.Prelude.{◌≡◌, length};
ghost use Rattle.lane.specs.Levels.{level_at};
ghost use Rattle.cells.specs.Boxes.{box_of};
ghost use Rattle.start.specs.Hits.{started_levels, row_hit, ring_hit, RowRoom, RingRoom};

use crate::stretch;
use cells::boxes::Ring;
use window::record::Window;

// Starts one lane in row y of its ring box, of the window: in the columns that are inside.
fn start_row(
    lanes: &mut [i16],
    walk: &[u8],
    rows: &[u16],
    window: Window,
    ring: Ring,
    lane: usize,
    y: usize,
)
    requires { RowRoom window (length lanes.old) (length walk.now) rows.now (box_of ring.ring) lane y }
    ensures { level_at lanes.new ≡ started_levels (level_at lanes.old)
        (row_hit window walk.now rows.now (box_of ring.ring) (box_of ring.body) lane y) }
{
    let row = y - window.top;
    let first = (ring.ring.left + 1).max(usize::from(rows[2 * row]) + window.left);
    let past = (ring.ring.right + 2).min(usize::from(rows[2 * row + 1]) + window.left);
    stretch::start_cells(
        lanes,
        walk,
        ring.body,
        window.lanes,
        lane,
        first - 1,
        y,
        (row + 1) * window.stride() + (first - window.left),
        past.saturating_sub(first),
    );
}

// Starts one lane in the rows of its ring box that are in the window.
pub fn start_ring(
    lanes: &mut [i16],
    walk: &[u8],
    rows: &[u16],
    window: Window,
    ring: Ring,
    lane: usize,
)
    requires { RingRoom window (length lanes.old) (length walk.now) rows.now (box_of ring.ring) lane }
    ensures { level_at lanes.new ≡ started_levels (level_at lanes.old)
        (ring_hit window walk.now rows.now (box_of ring.ring) (box_of ring.body) lane) }
{
    let first = ring.ring.top.max(window.top);
    let past = (ring.ring.bottom + 1).min(window.top + window.height);
    for y in first..past {
        start_row(lanes, walk, rows, window, ring, lane, y);
    }
}
