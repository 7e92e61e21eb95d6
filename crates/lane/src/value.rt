// One lane: steps that saturate at unreachable, the lesser and the greater of two, and its value at the start.
// Contracts speak of a lane's level, the lane + 32,768: half cost 0 is level 17,534, unreachable 65,535.
ghost use Rattle.std.specs.Prelude.{◌≡◌, ℕ, pos, min, max};
ghost use Rattle.lane.specs.Levels.{level, saturated, started_level};

// Half cost 0.
pub const ZERO: i16 = -15234;

// The lesser of two lanes.
pub fn least(x: i16, y: i16) -> i16
    ensures { level result ≡ min (level x) (level y) }
{
    x.min(y)
}

// The greater of two lanes.
pub fn most(x: i16, y: i16) -> i16
    ensures { level result ≡ max (level x) (level y) }
{
    x.max(y)
}

// A lane after a step of so many half costs.
pub fn stepped(lane: i16, step: i16) -> i16
    ensures { (price : ℕ) → step ≡ pos price → level result ≡ saturated (level lane) price }
{
    lane.saturating_add(step)
}

// A cell's lane at the start: half cost 0 on a walkable ring cell, else as it was.
pub fn started(old: i16, starts: bool) -> i16
    ensures { level result ≡ started_level (level old) starts }
{
    if starts { ZERO } else { old }
}
