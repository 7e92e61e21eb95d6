// The eight directions.

// A table, by the number of a direction: by how many columns and rows a move leads from the cell before, and how far along the states.
#[derive(Drop)]
pub struct Directions {
    pub over: [usize; 8],
    pub down: [usize; 8],
    pub steps: [usize; 8],
}
