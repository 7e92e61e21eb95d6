// Row intervals: the first inside column of each row and one past the last, counted with padding.
ghost use Rattle.std.specs.Prelude.{◌≡◌, ◌+◌, ◌*◌, ◌≤◌, ◌<◌, length};
ghost use Rattle.walkgraph.specs.Lists.{placed};
ghost use Rattle.cells.specs.Boxes.{box_of};
ghost use Rattle.window.specs.Fills.{entries};
ghost use Rattle.intervals.specs.Intervals.{InRow, inside_gaps, first_of, past_of, ends, rows_filled, RowEnds};

use cells::boxes::CellBox;
use gaps;
use gaps::RowGaps;
use window::record::Window;

// The columns before the first inside one; all of them in a row that has none.
fn first_inside(window: Window, gaps: RowGaps) -> usize
    requires { InRow window gaps }
    ensures { result + 1 ≡ first_of window (inside_gaps window gaps) }
{
    for column in 0..window.width {
        if gaps.inside(window.left + column) {
            return column;
        }
    }
    window.width
}

// The columns up to the last inside one, by the number of those before the first; all of them in a row that has none.
fn past_inside(window: Window, gaps: RowGaps, first: usize) -> usize
    requires { InRow window gaps × (first + 1 ≡ first_of window (inside_gaps window gaps)) }
    ensures { (result ≤ window.width) × (result + 1 ≡ past_of window (inside_gaps window gaps)) }
{
    for column in (first..window.width).rev() {
        if gaps.inside(window.left + column) {
            return column + 1;
        }
    }
    window.width
}

// Writes the interval of one window row.
fn write_row(rows: &mut [u16], window: Window, sources: CellBox, targets: CellBox, y: usize)
    requires { RowEnds window sources targets (length rows.old) × (y < window.height) }
    ensures { entries rows.new ≡ placed (entries rows.old) (2 * y) 2 (ends window (box_of sources) (box_of targets) (y + 1)) }
{
    let gaps = RowGaps {
        sources,
        targets,
        source: gaps::gap(window.top + y, sources.top, sources.bottom),
        target: gaps::gap(window.top + y, targets.top, targets.bottom),
    };
    let first = first_inside(window, gaps);
    let past = past_inside(window, gaps, first);
    rows[2 * y] = gaps::padded(first);
    rows[2 * y + 1] = gaps::padded(past);
}

// Writes the intervals of all window rows.
pub fn write_rows(rows: &mut [u16], window: Window, sources: CellBox, targets: CellBox)
    requires { RowEnds window sources targets (length rows.old) }
    ensures { entries rows.new ≡ rows_filled window (box_of sources) (box_of targets) (entries rows.old) }
{
    for y in 0..window.height {
        write_row(rows, window, sources, targets, y);
    }
}
