// Lanes of one cell on the way out: a wall, or what its neighbours lead to.
ghost use Rattle.std.specs.Prelude.{◌≤◌, length};
ghost use Rattle.lane.specs.Levels.{level_at};
ghost use Rattle.strip.specs.Strips.{HasLevels};
ghost use Rattle.ways.specs.Row.{out_levels};
ghost use Rattle.ways.specs.Buffers.{Gates, CellFits};

use crate::gate;

// The lanes at index i of a cell on the way out, all of them or some: o is the index of those that feed them, whose neighbours lie lane_count
// before and after; beside are those of the cell just left, flag the cell's flags. A wall is answered at once: what leads to it is not looked at.
pub fn out<const LANES: usize>(
    lanes: &[i16],
    gates: &[i16; 32],
    i: usize,
    o: usize,
    lane_count: usize,
    flag: u8,
    down: bool,
    beside: [i16; LANES],
) -> [i16; LANES]
    requires { Gates gates.now × (LANES ≤ 16) × CellFits LANES lane_count i o (length lanes.now) }
    ensures { HasLevels LANES result (out_levels lane_count down flag (level_at lanes.now) i o (level_at beside.entry)) }
{
    if flag % 2 == 0 {
        return [32767; LANES];
    }
    let turned = gate::turned(flag, down);
    strip::out(
        lanes,
        gates,
        i,
        o,
        o - lane_count,
        o + lane_count,
        beside,
        gate::place(turned / 2),
        gate::place(turned / 4),
    )
}
