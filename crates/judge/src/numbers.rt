// Refusals 2, 3, 5 and 6: the lane count, numbers in fours, and the target box along one axis.
ghost use Rattle.std.specs.Prelude.{◌≡◌, not};
ghost use Rattle.walkgraph.specs.Refusals.{bad_lanes, bad_fours, bad_span};

// Eight or sixteen lanes.
#[tactic(auto, unfolding(walkgraph::specs::Refusals::bad_lanes))]
pub fn lanes_ok(lanes: u32) -> bool
    ensures { result ≡ not (bad_lanes lanes) }
{
    lanes == 8 || lanes == 16
}

// Numbers in fours, and at most so many fours.
#[tactic(auto, unfolding(walkgraph::specs::Refusals::bad_fours))]
pub fn fours_ok(most: usize, numbers: &[i32]) -> bool
    ensures { result ≡ not (bad_fours most numbers.now) }
{
    numbers.len() % 4 == 0 && numbers.len() / 4 <= most
}

// Cells from low to high, ends included: not empty, and on a map of size columns or rows.
#[tactic(auto, using(crate::proofs::Spans::good_span))]
pub fn within(size: u32, low: i32, high: i32) -> bool
    ensures { result ≡ not (bad_span size low high) }
{
    0 <= low && low <= high && (high as u32) < size
}
