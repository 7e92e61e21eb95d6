// The line of a cell: its column, its row, and what each resource's lane says.
#![tactic(auto)]

ghost use Rattle.page.specs.Puts.{Puts, Room};
ghost use Rattle.celllines.specs.Costs.{cost_texts, cell_line};

use costtext;
use page::Page;

// Puts the costs of all resources.
fn costs(page: &mut Page<'_>, part: &[i16], resources: usize)
    requires { Room (cost_texts part.now resources) page.old }
    ensures { Puts (cost_texts part.now resources) page.old page.new }
{
    for l in 0..resources {
        costtext::cost_at(page, part, l);
    }
}

// Puts the line of the cell (x, y).
pub fn cell(page: &mut Page<'_>, x: usize, y: usize, part: &[i16], resources: usize)
    requires { Room (cell_line x y part.now resources) page.old }
    ensures { Puts (cell_line x y part.now resources) page.old page.new }
{
    page.number_then(x as u64, b' ');
    page.number(y as u64);
    costs(page, part, resources);
    page.byte(b'\n');
}
