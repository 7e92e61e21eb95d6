// Whether a cell of the ring box starts its lane: it is walkable, and not in the body.
#![tactic(auto)]

ghost use Rattle.std.specs.Prelude.{◌≡◌, not, ◌&&◌, eqb};
ghost use Rattle.walkgraph.specs.Map.{in_box};
ghost use Rattle.cells.specs.Boxes.{box_of};

use cells::boxes::CellBox;

// Whether a box covers a cell.
#[tactic(auto, unfolding(walkgraph::specs::Map::in_box))]
pub fn covers(body: CellBox, x: usize, y: usize) -> bool
    ensures { result ≡ in_box (box_of body) x y }
{
    body.left <= x && x <= body.right && body.top <= y && y <= body.bottom
}

// Whether a cell of the ring box starts: walkable, and not in the body.
pub fn starts(walk: u8, covered: bool) -> bool
    ensures { result ≡ (eqb walk 1 && not covered) }
{
    walk == 1 && !covered
}
