// The section of a room text that has the map: the count of its rows, and then the rows.
#![tactic(auto)]

ghost use Rattle.roomrows.specs.Rows.{CellsFit};
ghost use Rattle.roomgrid.specs.Grids.{TakesGrid};
ghost use Rattle.roomgrid.specs.Answers.{grid_found};

use reader;
use roomrows;
use textlines::broken::Broken;

// The width and the height of a map, and the place after it.
#[derive(Clone, Copy, Debug, PartialEq, Eq)]
pub struct Map {
    pub width: usize,
    pub height: usize,
    pub past: usize,
}

// Reads the section of rows, their count and then the rows, and stores their cells.
pub fn grid(text: &[u8], at: usize, cells: &mut [u8]) -> Result<Map, Broken>
    requires { CellsFit text.now at cells.old }
    ensures { TakesGrid text.now at cells.old cells.new (grid_found result) }
{
    let number = reader::count_at(text, at, 1, 2147483647);
    let (height, first) = number.ok_or(Broken { passed: 0 })?;
    let lines = roomrows::rows(text, first, height, cells);
    let (width, past) = lines.map_err(|broken| broken.after(1))?;
    Ok(Map {
        width,
        height,
        past,
    })
}
