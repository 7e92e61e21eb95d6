// The rows of a ring, from its first to its last.
ghost use Rattle.std.specs.Prelude.{◌≡◌, length};
ghost use Rattle.cells.specs.Boxes.{box_of};
ghost use Rattle.ringlists.specs.Lists.{Listed};
ghost use Rattle.ringruns.specs.Runs.{OnMap};
ghost use Rattle.ringrows.specs.Rows.{ring_places};
ghost use Rattle.ringrows.specs.Room.{RingFits};

use crate::row;
use cells::boxes::Ring;
use ringruns;

// How many cells of a ring are walkable.
pub fn count_rows(cells: &[u8], ring: Ring, width: usize) -> usize
    requires { OnMap width (length cells.now) (box_of ring.ring) (box_of ring.body) }
    ensures { result ≡ length (ring_places cells.now width (box_of ring.ring) (box_of ring.body)) }
{
    let mut total: usize = 0;
    for n in 0..ring.ring.bottom + 1 - ring.ring.top {
        total += row::count_row(cells, ringruns::row_runs(ring, width, ring.ring.top + n));
    }
    total
}

// Lists the walkable cells of a ring; answers how many there are.
pub fn list_rows(cells: &[u8], ring: Ring, width: usize, out: &mut [u32]) -> usize
    requires { RingFits cells.now width (box_of ring.ring) (box_of ring.body) (length out.old) }
    ensures { Listed (ring_places cells.now width (box_of ring.ring) (box_of ring.body)) out.old 0 out.new result }
{
    let mut used: usize = 0;
    for n in 0..ring.ring.bottom + 1 - ring.ring.top {
        let runs = ringruns::row_runs(ring, width, ring.ring.top + n);
        used = row::list_row(cells, runs, out, used);
    }
    used
}
