// Where a field is made.
use cells::boxes::CellBox;
use window::record::Window;

// The map's size, the box around all ring boxes, the target box, and the window.
#[derive(Clone, Copy)]
pub struct Site {
    pub width: usize,
    pub height: usize,
    pub sources: CellBox,
    pub targets: CellBox,
    pub window: Window,
}
