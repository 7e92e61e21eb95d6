// Boxes of cells.

// Cells from left to right and top to bottom, ends included.
#[derive(Clone, Copy)]
pub struct CellBox {
    pub left: usize,
    pub top: usize,
    pub right: usize,
    pub bottom: usize,
}

// The ring box and the body of an accepted resource.
#[derive(Clone, Copy)]
pub struct Ring {
    pub ring: CellBox,
    pub body: CellBox,
}
