// What a resource's lane says of a cell, as text.
#![tactic(auto)]

ghost use Rattle.page.specs.Puts.{Puts, Room};
ghost use Rattle.costtext.specs.Costs.{cost_text, cost_at};

use page::Page;

// Puts the cost that a lane holds, or `-` where it holds none.
fn cost(page: &mut Page<'_>, lane: i16)
    requires { Room (cost_text lane) page.old }
    ensures { Puts (cost_text lane) page.old page.new }
{
    match halfcost::half_cost(lane) {
        Some(half) => page.number(u64::from(half)),
        None => page.byte(b'-'),
    }
}

// Puts a space and the cost of resource l in a cell's part of the lanes.
pub fn cost_at(page: &mut Page<'_>, part: &[i16], l: usize)
    requires { Room (cost_at part.now l) page.old }
    ensures { Puts (cost_at part.now l) page.old page.new }
{
    page.byte(b' ');
    cost(page, part.get(l).copied().unwrap_or(i16::MAX));
}
