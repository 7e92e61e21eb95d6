// All rectangles together: how many access cells they have.
ghost use Rattle.std.specs.Prelude.{◌≡◌, ◌/◌, length};
ghost use Rattle.manyrectangles.specs.AllCells.{all_cells};
ghost use Rattle.manyrectangles.specs.Listing.{Judged};

use crate::one;

// How many access cells all rectangles have together.
pub fn count_all(cells: &[u8], rectangles: &[i32], width: usize, height: usize) -> usize
    requires { Judged width height cells.now rectangles.now }
    ensures { result ≡ length (all_cells width height cells.now rectangles.now (length rectangles.now / 4)) }
{
    let mut total: usize = 0;
    for k in 0..rectangles.len() / 4 {
        total += one::count_one(cells, rectangles, k, width, height);
    }
    total
}
