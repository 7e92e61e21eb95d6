// The lines of the target cells, row by row, put on a page.
#![tactic(auto)]

ghost use Rattle.cells.specs.Boxes.{box_of};
ghost use Rattle.window.specs.Windows.{as_record};
ghost use Rattle.page.specs.Puts.{Puts};
ghost use Rattle.targetlines.specs.Targets.{line_at, row_lines, target_lines, LineRoom, RowRoom, TargetRoom};

use cells::boxes::CellBox;
use page::Page;
use window::record::Window;

// A field as a sheet shows it: its window, its lanes, and how many resources it is of.
#[derive(Clone, Copy)]
pub struct Field<'a> {
    pub window: Window,
    pub lanes: &'a [i16],
    pub resources: usize,
}

// Puts the line of the cell (x, y), whose lanes are read by the window's record.
fn line(page: &mut Page<'_>, field: Field<'_>, x: usize, y: usize)
    requires { LineRoom (as_record field.window) field.lanes.now field.resources x y page.old }
    ensures { Puts (line_at (as_record field.entry.window) field.entry.lanes.now field.entry.resources x y) page.old page.new }
{
    let part = reading::at(field.window, field.lanes, x as u32, y as u32);
    celllines::cell(page, x, y, part, field.resources);
}

// Puts the lines of the target cells of row y.
fn row(page: &mut Page<'_>, field: Field<'_>, targets: CellBox, y: usize)
    requires { RowRoom (as_record field.window) field.lanes.now field.resources (box_of targets) y page.old }
    ensures { Puts (row_lines (as_record field.entry.window) field.entry.lanes.now field.entry.resources (box_of targets) y) page.old page.new }
{
    for x in targets.left..=targets.right {
        line(page, field, x, y);
    }
}

// Puts the lines of all target cells.
pub fn rows(page: &mut Page<'_>, field: Field<'_>, targets: CellBox)
    requires { TargetRoom (as_record field.window) field.lanes.now field.resources (box_of targets) page.old }
    ensures { Puts (target_lines (as_record field.entry.window) field.entry.lanes.now field.entry.resources (box_of targets)) page.old page.new }
{
    for y in targets.top..=targets.bottom {
        row(page, field, targets, y);
    }
}
