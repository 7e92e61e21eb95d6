// A row of a map in a room text: `.` is walkable and `#` is not.
#![tactic(auto)]

ghost use Rattle.std.specs.Prelude.{◌≡◌, ◌≤◌, length};
ghost use Rattle.std.specs.List.{list_all};
ghost use Rattle.rowform.specs.Rows.{is_cell, JudgesRow};

// A byte of a row.
#[tactic(auto, unfolding(crate::specs::Rows::is_cell))]
fn is_cell(byte: u8) -> bool
    ensures { result ≡ is_cell byte }
{
    byte == b'.' || byte == b'#'
}

// Bytes of a row and no others.
fn all_cells(bytes: &[u8]) -> bool
    ensures { result ≡ list_all is_cell bytes.now }
{
    bytes.iter().all(|byte| is_cell(*byte))
}

// A row of that width stands at a place, ended by LF.
pub fn is_row(text: &[u8], at: usize, width: usize) -> bool
    requires { at ≤ length text.now }
    ensures { JudgesRow text.now at width result }
{
    let rest = &text[at..];
    rest.get(width) == Some(&b'\n') && all_cells(&rest[..width])
}
