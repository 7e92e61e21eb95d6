// The lines of a sheet before and after those of the target cells, put on a page.
#![tactic(auto)]

ghost use Rattle.window.specs.Windows.{as_record};
ghost use Rattle.page.specs.Puts.{Puts, Room};
ghost use Rattle.outerlines.specs.Outer.{head_lines, field_lines, group_lines, FieldsRoom, GroupsRoom, PutsWithin};

use page::Page;
use window::record::Window;
use wordlines;

// Puts the lines of the window, of the sweep count and of the number of target cells.
pub fn head(page: &mut Page<'_>, window: Window, sweeps: usize, cells: usize)
    requires { Room (head_lines (as_record window) sweeps cells) page.old }
    ensures { Puts (head_lines (as_record window) sweeps cells) page.old page.new }
{
    wordlines::window_line(
        page,
        window.left as u64,
        window.top as u64,
        window.width as u64,
        window.height as u64,
    );
    wordlines::word_line(page, b"sweeps ", sweeps as u64);
    wordlines::word_line(page, b"cells ", cells as u64);
}

// Puts the lines of all resources' fields.
fn fields(page: &mut Page<'_>, answers: &[u16], resources: usize)
    requires { FieldsRoom answers.now resources page.old }
    ensures { PutsWithin 48 (field_lines answers.now resources) page.old page.new }
{
    for answer in &answers[..resources] {
        page.number_then(u64::from(*answer), b'\n');
    }
}

// Puts the number of fields, and each resource's field.
pub fn groups(page: &mut Page<'_>, groups: usize, answers: &[u16], resources: usize)
    requires { GroupsRoom groups answers.now resources page.old }
    ensures { PutsWithin 57 (group_lines groups answers.now resources) page.old page.new }
{
    wordlines::word_line(page, b"groups ", groups as u64);
    fields(page, answers, resources);
}
