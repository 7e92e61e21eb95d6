// A row of a ring as runs of cells beside the body.
#![tactic(auto)]

ghost use Rattle.std.specs.Prelude.{◌≡◌, ◌≤◌};
ghost use Rattle.cells.specs.Boxes.{box_of};
ghost use Rattle.ringruns.specs.Runs.{OnGrid, row_runs};

use cells::boxes::Ring;

// Two runs of cells: before the body and after it, or a whole row and none. Each by the index of its first cell.
#[derive(Clone, Copy)]
pub struct Runs {
    pub first: usize,
    pub before: usize,
    pub second: usize,
    pub after: usize,
}

// The runs of row y of a ring, on a map of width columns.
#[tactic(auto, using(crate::proofs::RowRuns::row_start), unfolding(crate::specs::Runs::row_runs))]
pub fn row_runs(ring: Ring, width: usize, y: usize) -> Runs
    requires { OnGrid width (box_of ring.ring) (box_of ring.body) × (y ≤ ring.ring.bottom) }
    ensures { result ≡ row_runs width (box_of ring.ring) (box_of ring.body) y }
{
    let start = y * width;
    if ring.body.top <= y && y <= ring.body.bottom {
        Runs {
            first: start + ring.ring.left,
            before: ring.body.left - ring.ring.left,
            second: start + ring.body.right + 1,
            after: ring.ring.right - ring.body.right,
        }
    } else {
        Runs {
            first: start + ring.ring.left,
            before: ring.ring.right + 1 - ring.ring.left,
            second: start,
            after: 0,
        }
    }
}
