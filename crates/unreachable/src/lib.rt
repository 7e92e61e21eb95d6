// The lanes of all cells before any starts: unreachable.
#![tactic(auto)]

ghost use Rattle.std.specs.Prelude.{◌≡◌, ℕ, ◌≤◌, length};
ghost use Rattle.walkgraph.specs.Lists.{placed};
ghost use Rattle.lane.specs.Levels.{level_at};

// Makes the first count lanes unreachable.
pub fn fill(lanes: &mut [i16], count: usize)
    requires { count ≤ length lanes.old }
    ensures { level_at lanes.new ≡ placed (level_at lanes.old) 0 count (λ (k : ℕ). 65535) }
{
    lanes[..count].fill(32767);
}
