// One rectangle of many: how many access cells it has, and their list.
ghost use Rattle.std.specs.Prelude.{◌≡◌, length};
ghost use Rattle.ringlists.specs.Lists.{Listed};
ghost use Rattle.manyrectangles.specs.AllCells.{cells_of};
ghost use Rattle.manyrectangles.specs.Listing.{OneOf, OneFits};

use ringrows::rows;
use rings::ring;

// How many access cells rectangle k has.
pub fn count_one(cells: &[u8], rectangles: &[i32], k: usize, width: usize, height: usize) -> usize
    requires { OneOf width height cells.now rectangles.now k }
    ensures { result ≡ length (cells_of width height cells.now rectangles.now k) }
{
    let ring = ring::ring_at(rectangles, k, width, height).unwrap();
    rows::count_rows(cells, ring, width)
}

// Lists the access cells of rectangle k behind used entries; answers how many are used then. The part behind them is lent on.
pub fn list_one(
    cells: &[u8],
    rectangles: &[i32],
    k: usize,
    width: usize,
    height: usize,
    indices: &mut [u32],
    used: usize,
) -> usize
    requires { OneFits width height cells.now rectangles.now k used (length indices.old) }
    ensures { Listed (cells_of width height cells.now rectangles.now k) indices.old used indices.new result }
{
    let ring = ring::ring_at(rectangles, k, width, height).unwrap();
    used + rows::list_rows(cells, ring, width, &mut indices[used..])
}
