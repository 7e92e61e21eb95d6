// What the fields call is given.
#![tactic(auto)]

// A map of so many columns and rows, a byte a cell, and the access cells of its resources: one list of indices, and where the indices of each resource end.
#[derive(Clone, Copy)]
pub struct FieldsInput<'a> {
    pub width: u32,
    pub height: u32,
    pub cells: &'a [u8],
    pub indices: &'a [u32],
    pub ends: &'a [u32],
}
