// The whole sheet, put on a page: the lines before those of the target cells, these, and the lines after them.
#![tactic(auto)]

ghost use Rattle.cells.specs.Boxes.{box_of};
ghost use Rattle.window.specs.Windows.{as_record};
ghost use Rattle.outerlines.specs.Outer.{PutsWithin};
ghost use Rattle.sheettext.specs.Sheets.{sheet_text, SheetRoom};

use cells::boxes::CellBox;
use page::Page;
use targetlines::Field;

// Puts the whole sheet.
pub fn sheet(
    page: &mut Page<'_>,
    field: Field<'_>,
    sweeps: usize,
    targets: CellBox,
    groups: usize,
    answers: &[u16],
)
    requires { SheetRoom (as_record field.window) sweeps (box_of targets) field.resources groups answers.now page.old }
    ensures { PutsWithin 200000
        (sheet_text (as_record field.entry.window) sweeps (box_of targets) field.entry.lanes.now field.entry.resources groups answers.now)
        page.old page.new }
{
    outerlines::head(page, field.window, sweeps, targetbox::target_cells(targets));
    targetlines::rows(page, field, targets);
    outerlines::groups(page, groups, answers, field.resources);
}
