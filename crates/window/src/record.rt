// The window record.
ghost use Rattle.std.specs.Prelude.{◌≡◌, ◌+◌, ◌*◌, ◌≤◌};
ghost use Rattle.walkgraph.specs.Window.{window};
ghost use Rattle.walkgraph.specs.Reading.{no_window};
ghost use Rattle.cells.specs.Boxes.{reach, box_of};
ghost use Rattle.window.specs.Windows.{as_record, window_over, OnMap};

use cells::boxes::CellBox;
use windowedges;

// The cells from (left, top) on, width by height, with so many lanes each.
#[derive(Clone, Copy)]
pub struct Window {
    pub left: usize,
    pub top: usize,
    pub width: usize,
    pub height: usize,
    pub lanes: usize,
}

impl Window {
    // The window of a call with no resources.
    #[tactic(auto, unfolding(walkgraph::specs::Reading::no_window))]
    pub fn nothing(lanes: usize) -> Window
        ensures { as_record result ≡ no_window lanes }
    {
        Window {
            left: 0,
            top: 0,
            width: 0,
            height: 0,
            lanes,
        }
    }

    // The window around sources and targets, on a map of width by height.
    pub fn around(
        sources: CellBox,
        targets: CellBox,
        width: usize,
        height: usize,
        lanes: usize,
    ) -> Window
        requires { OnMap width height (box_of sources) (box_of targets) }
        ensures { result ≡ window_over (window reach width height (box_of sources) (box_of targets)) lanes }
    {
        let left = windowedges::low(sources.left, targets.left);
        let top = windowedges::low(sources.top, targets.top);
        let right = windowedges::high(sources.right, targets.right, width);
        let bottom = windowedges::high(sources.bottom, targets.bottom, height);
        Window {
            left,
            top,
            width: right + 1 - left,
            height: bottom + 1 - top,
            lanes,
        }
    }

    // The cells of one row, with padding.
    pub fn stride(self) -> usize
        requires { self.width ≤ 1024 }
        ensures { result ≡ self.width + 2 }
    {
        self.width + 2
    }

    // All cells, with padding.
    pub fn padded(self) -> usize
        requires { (self.width ≤ 1024) × (self.height ≤ 1024) }
        ensures { result ≡ (self.height + 2) * (self.width + 2) }
    {
        (self.width + 2) * (self.height + 2)
    }
}
