// The flags of a window, row by row.
#![tactic(auto)]

ghost use Rattle.std.specs.Prelude.{◌≡◌, ◌+◌, length};
ghost use Rattle.walkgraph.specs.Lists.{placed};
ghost use Rattle.window.specs.Fills.{entries, window_rows};
ghost use Rattle.flags.specs.Flags.{flag_at, FlagRow, FlagRowAt, FlagRows, flag_rows};

use cellflags;
use window::record::Window;

// The flags of one row of count cells, from the three rows of walk bytes around it.
fn flag_row(walk: &[u8], stride: usize, flags: &mut [u8], count: usize)
    requires { FlagRow walk.now stride (length flags.old) count }
    ensures { entries flags.new ≡ placed (entries flags.old) 0 count (λ x. flag_at (entries walk.now) stride (stride + 1 + x)) }
{
    // Stays: a flag is made of five bytes at shifted places of three rows, and a chain that zips four shifted slices with the flags is no plainer.
    for x in 0..count {
        flags[x] = cellflags::flags_of(
            walk[stride + x + 1],
            walk[stride + x],
            walk[stride + x + 2],
            walk[x + 1],
            walk[2 * stride + x + 1],
        );
    }
}

// The flags of the row that starts at an index: a part of the walk bytes that starts one row above it is lent.
fn flag_row_at(walk: &[u8], stride: usize, flags: &mut [u8], row: usize, count: usize)
    requires { FlagRowAt walk.now stride (length flags.old) row count }
    ensures { entries flags.new ≡ placed (entries flags.old) (row + 1) count (λ x. flag_at (entries walk.now) stride (row + 1 + x)) }
{
    let above = row - stride;
    let end = row + 2 * stride;
    let first = row + 1;
    let last = first + count;
    flag_row(&walk[above..end], stride, &mut flags[first..last], count);
}

// The flags of all window rows.
pub fn flag_rows(walk: &[u8], flags: &mut [u8], window: Window)
    requires { FlagRows window walk.now (length flags.old) }
    ensures { entries flags.new ≡ window_rows window (entries flags.old) (flag_rows window (entries walk.now)) }
{
    let stride = window.stride();
    let count = window.width;
    for y in 0..window.height {
        flag_row_at(walk, stride, flags, (y + 1) * stride, count);
    }
}
