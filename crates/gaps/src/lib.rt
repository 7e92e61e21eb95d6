// The gap of a value to an interval, octile cost, and the inside of a window; a column as row intervals count it.
#![tactic(auto)]

ghost use Rattle.std.specs.Prelude.{◌≡◌, ◌+◌, ◌≤◌};
ghost use Rattle.walkgraph.specs.Window.{gap, octile};
ghost use Rattle.cells.specs.Boxes.{reach, box_of};
ghost use Rattle.gaps.specs.Inside.{Beside, inside_in_row};

use cells::boxes::CellBox;
use windowedges::REACH;

// The distance of a value to an interval, 0 in it.
#[tactic(auto, unfolding(walkgraph::specs::Window::gap))]
pub fn gap(value: usize, low: usize, high: usize) -> usize
    requires { low ≤ high }
    ensures { result ≡ gap value low high }
{
    low.saturating_sub(value) + value.saturating_sub(high)
}

// The octile cost of an offset.
#[tactic(auto, unfolding(walkgraph::specs::Window::octile))]
fn octile(dx: usize, dy: usize) -> usize
    requires { (dx ≤ 1024) × (dy ≤ 1024) }
    ensures { result ≡ octile dx dy }
{
    1000 * dx.max(dy) + 414 * dx.min(dy)
}

// What decides which columns of one row are inside: the boxes of the sources and of the targets, and the row's gaps to them.
#[derive(Clone, Copy)]
pub struct RowGaps {
    pub sources: CellBox,
    pub targets: CellBox,
    pub source: usize,
    pub target: usize,
}

impl RowGaps {
    // Whether the cell of a column is inside.
    pub fn inside(self, x: usize) -> bool
        requires { (x ≤ 1024) × Beside self.sources self.source × Beside self.targets self.target }
        ensures { result ≡ inside_in_row reach (box_of self.sources) self.source (box_of self.targets) self.target x }
    {
        let from_sources = octile(gap(x, self.sources.left, self.sources.right), self.source);
        let to_targets = octile(gap(x, self.targets.left, self.targets.right), self.target);
        from_sources + to_targets <= 1000 * REACH
    }
}

// A column of a window, from 0, counted with padding.
// Stays: asks for what fits, and `From` asks for nothing.
pub fn padded(column: usize) -> u16
    requires { column ≤ 1024 }
    ensures { result ≡ column + 1 }
{
    (column + 1) as u16
}
