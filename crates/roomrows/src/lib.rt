// The rows of a map in a room text, all of one length, read and stored as cells in a lent buffer.
#![tactic(auto)]

ghost use Rattle.std.specs.Prelude.{◌≡◌, map, ◌+◌, ◌<◌, length};
ghost use Rattle.textlines.specs.Lines.{LineAt};
ghost use Rattle.roomrows.specs.Rows.{cell_of, TakesRows, CellsFit};
ghost use Rattle.roomrows.specs.Answers.{rows_found};

use rowform;
use textlines;
use textlines::broken::Broken;

// The cell that a byte of a row stands for.
#[tactic(auto, unfolding(crate::specs::Rows::cell_of))]
fn cell(byte: u8) -> u8
    ensures { result ≡ cell_of byte }
{
    u8::from(byte == b'.')
}

// Stores the cells of a row.
fn store(row: &[u8], cells: &mut [u8])
    requires { length row.now ≡ length cells.old }
    ensures { cells.new ≡ map cell_of row.now }
{
    // Stays: over `cells.iter_mut().zip(row)` the proof did not close: after such a loop nothing is known of the cells.
    for (k, stored) in cells.iter_mut().enumerate() {
        *stored = cell(row[k]);
    }
}

// Reads so many rows of that width, which the first line has, and stores their cells. Answers the width and the place after the rows.
fn rows_of(
    text: &[u8],
    at: usize,
    count: usize,
    width: usize,
    cells: &mut [u8],
) -> Result<(usize, usize), Broken>
    requires { CellsFit text.now at cells.old × LineAt text.now at (at + width) × (0 < width) }
    ensures { TakesRows text.now at count cells.old cells.new (rows_found result) }
{
    let mut from = at;
    let mut to = 0;
    for passed in 0..count {
        if !rowform::is_row(text, from, width) {
            return Err(Broken { passed });
        }
        store(&text[from..from + width], &mut cells[to..to + width]);
        from += width + 1;
        to += width;
    }
    Ok((width, from))
}

// Reads so many rows and stores their cells. Answers their width and the place after them.
pub fn rows(
    text: &[u8],
    at: usize,
    count: usize,
    cells: &mut [u8],
) -> Result<(usize, usize), Broken>
    requires { CellsFit text.now at cells.old × (0 < count) }
    ensures { TakesRows text.now at count cells.old cells.new (rows_found result) }
{
    let end = textlines::line_end(text, at).ok_or(Broken { passed: 0 })?;
    if end == at {
        return Err(Broken { passed: 0 });
    }
    rows_of(text, at, count, end - at, cells)
}
