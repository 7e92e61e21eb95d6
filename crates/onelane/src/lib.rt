// One lane of a cell: what it takes from its neighbours on each way along a row, and whether it stayed the same.
#![tactic(auto)]

ghost use Rattle.std.specs.Prelude.{◌≡◌, ◌+◌, ◌≤◌, ◌<◌, length};
ghost use Rattle.lane.specs.Levels.{level, level_at};
ghost use Rattle.onelane.specs.Takes.{SlantFits, slant_at, out_at, back_at};
ghost use Rattle.onelane.specs.Mark.{kept_mark};

use lane::value;

// What a straight and a diagonal step cost, in half costs.
const STRAIGHT: i16 = 500;

const DIAGONAL: i16 = 707;

// The lesser of the two lanes beside the one in the feeding row, where their gates are open. A gate is -32,768 (open) or 32,767 (shut).
fn slant(
    lanes: &[i16],
    gates: &[i16],
    west: usize,
    east: usize,
    west_gate: usize,
    east_gate: usize,
    k: usize,
) -> i16
    requires { SlantFits (k + 1) west east west_gate east_gate (length lanes.now) (length gates.now) }
    ensures { level result ≡ slant_at (level_at lanes.now) (level_at gates.now) west east west_gate east_gate k }
{
    value::least(
        value::most(lanes[west + k], gates[west_gate + k]),
        value::most(lanes[east + k], gates[east_gate + k]),
    )
}

// Lane k of a walkable cell on the way along a row and from the row that feeds it: its own is at index i, that of the cell in the
// feeding row at over, those beside it at west and east, and beside is that of the cell that the way came from.
pub fn out(
    lanes: &[i16],
    gates: &[i16],
    i: usize,
    over: usize,
    west: usize,
    east: usize,
    beside: i16,
    west_gate: usize,
    east_gate: usize,
    k: usize,
) -> i16
    requires { (i + k < length lanes.now) × (over + k < length lanes.now)
        × SlantFits (k + 1) west east west_gate east_gate (length lanes.now) (length gates.now) }
    ensures { level result ≡ out_at (level_at lanes.now) (level_at gates.now) i over west east (level beside) west_gate east_gate k }
{
    let corner = value::stepped(
        slant(lanes, gates, west, east, west_gate, east_gate, k),
        DIAGONAL,
    );
    let fed = value::least(
        lanes[i + k],
        value::least(value::stepped(lanes[over + k], STRAIGHT), corner),
    );
    value::least(fed, value::stepped(beside, STRAIGHT))
}

// Lane k of a cell on the way back along a row.
pub fn back(lanes: &[i16], gates: &[i16], i: usize, beside: i16, walk_gate: usize, k: usize) -> i16
    requires { (i + k < length lanes.now) × (walk_gate + k < length gates.now) }
    ensures { level result ≡ back_at (level_at lanes.now) (level_at gates.now) i (level beside) walk_gate k }
{
    value::most(
        value::least(lanes[i + k], value::stepped(beside, STRAIGHT)),
        gates[walk_gate + k],
    )
}

// A mark of change, -1 at first: it stays where two lanes are equal, and becomes 0 where they differ.
pub fn kept(same: i16, old: i16, new: i16) -> i16
    ensures { result ≡ kept_mark same (level old) (level new) }
{
    if old == new { same } else { 0 }
}
