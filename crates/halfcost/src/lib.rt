// The half cost of a lane, and back.
#![tactic(auto)]

ghost use Rattle.std.specs.Prelude.{◌≡◌, ◌≤◌};
ghost use Rattle.walkgraph.specs.Lanes.{bias, lane_of};
ghost use Rattle.halfcost.specs.Costs.{cost_of};

// The half cost that a lane holds, if there is a way within the reach. A lane below half cost 0 holds none, and reads as unreachable.
pub fn half_cost(lane: i16) -> Option<u16>
    ensures { result ≡ cost_of lane }
{
    if lane == i16::MAX {
        return None;
    }
    u16::try_from(i32::from(lane) + 15234).ok()
}

// The lane that holds a half cost of at most 48,000.
// Stays: asks for what fits, and `From` asks for nothing.
pub fn lane_of(half: u16) -> i16
    requires { half ≤ 48000 }
    ensures { result ≡ lane_of (bias 96) half }
{
    (i32::from(half) - 15234) as i16
}
