// The rows of the map in the window, copied to its walk bytes.
ghost use Rattle.std.specs.Prelude.{◌≡◌, length};
ghost use Rattle.window.specs.Fills.{entries, window_rows};
ghost use Rattle.walkbytes.specs.Copies.{Copies, map_rows};

use window::record::Window;

// Copies the cells of a row. One by one: for `copy_from_slice` the library would need `memmove` from outside.
fn copy_row(row: &[u8], walk: &mut [u8])
    requires { length row.now ≡ length walk.old }
    ensures { walk.new ≡ row.now }
{
    for (x, copied) in walk.iter_mut().enumerate() {
        *copied = row[x];
    }
}

// Copies the cells of the window from a map of width columns.
pub fn copy_rows(cells: &[u8], walk: &mut [u8], window: Window, width: usize)
    requires { Copies window width (length cells.now) (length walk.old) }
    ensures { entries walk.new ≡ window_rows window (entries walk.old) (map_rows window width cells.now) }
{
    let stride = window.stride();
    let count = window.width;
    for y in 0..window.height {
        let from = (window.top + y) * width + window.left;
        let to = (y + 1) * stride + 1;
        copy_row(&cells[from..from + count], &mut walk[to..to + count]);
    }
}
