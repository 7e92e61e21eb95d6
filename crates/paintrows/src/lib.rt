// Rows of walk bytes painted: bytes that become 0, unwalkable.
#![tactic(auto)]

ghost use Rattle.std.specs.Prelude.{◌≡◌, ℕ, ◌+◌, ◌<◌, length};
ghost use Rattle.walkgraph.specs.Lists.{placed};
ghost use Rattle.window.specs.Fills.{entries, zeros, rows_placed};
ghost use Rattle.paintrows.specs.PaintRows.{PaintRows};

// Writes 0 to count bytes from an index on.
fn paint_row(walk: &mut [u8], from: usize, count: usize)
    requires { (x : ℕ) → x < count → from + x < length walk.old }
    ensures { entries walk.new ≡ placed (entries walk.old) from count zeros }
{
    if count > 0 {
        walk[from..from + count].fill(0);
    }
}

// Paints rows of count bytes, the first from an index on.
pub fn paint_rows(walk: &mut [u8], stride: usize, first: usize, rows: usize, count: usize)
    requires { PaintRows stride first rows count (length walk.old) }
    ensures { entries walk.new ≡ rows_placed (entries walk.old) first stride rows count (λ _. zeros) }
{
    for y in 0..rows {
        paint_row(walk, first + y * stride, count);
    }
}
