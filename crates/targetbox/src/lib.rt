// The cells of a call's target box, and how many there are.
#![tactic(auto)]

ghost use Rattle.std.specs.Prelude.{◌≡◌};
ghost use Rattle.fournumbers.specs.Corners.{corners_of};
ghost use Rattle.cells.specs.Boxes.{box_of, InMap};
ghost use Rattle.targetbox.specs.TargetBox.{Natural, cells_of};
ghost use Rattle.targetbox.specs.Targets.{target_cells};

use cells::boxes::CellBox;
use fournumbers::Corners;

// The cells of a target box that is not negative.
// Stays: asks for what fits, and `From` asks for nothing.
pub fn cells_of(targets: Corners) -> CellBox
    requires { Natural (corners_of targets) }
    ensures { box_of result ≡ cells_of (corners_of targets) }
{
    CellBox {
        left: targets.left as usize,
        top: targets.top as usize,
        right: targets.right as usize,
        bottom: targets.bottom as usize,
    }
}

// How many target cells there are.
#[tactic(auto, using(crate::proofs::Few::cells_few), unfolding(crate::specs::Targets::target_cells))]
pub fn target_cells(targets: CellBox) -> usize
    requires { InMap 60 60 (box_of targets) }
    ensures { result ≡ target_cells (box_of targets) }
{
    (targets.right + 1 - targets.left) * (targets.bottom + 1 - targets.top)
}
