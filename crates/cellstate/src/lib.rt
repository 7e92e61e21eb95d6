// What the search reads of the cells' states.
#![tactic(auto)]

ghost use Rattle.std.specs.Prelude.{◌≡◌, ◌<◌, eqb, length};
ghost use Rattle.disjoint.specs.Forest.{of};
ghost use Rattle.cellstate.specs.Labels.{cell_of, depth_of};
ghost use Rattle.cellstate.specs.Looks.{opens, highest};

// The cell at a point has depth 16.
pub fn deepest(states: &[u16], width: usize, point: u32) -> bool
    requires { cell_of width point < length states.now }
    ensures { result ≡ eqb (depth_of (of states.now (cell_of width point))) 16 }
{
    states[(point / 1024) as usize * width + (point % 1024) as usize] % 32 == 16
}

// The next cell and the two that share a side with both ends are walkable. Of a straight move those are the two ends.
#[tactic(auto, unfolding(crate::specs::Looks::opens))]
pub fn open(states: &[u16], next: usize, first: usize, second: usize) -> bool
    requires { (next < length states.now) × (first < length states.now) × (second < length states.now) }
    ensures { result ≡ opens states.now next first second }
{
    states[next] > 0 && states[first] > 0 && states[second] > 0
}

// The highest state that a cell does not look at: labels below its own and its own. At depth 15 it looks at every walkable neighbour.
#[tactic(auto, unfolding(crate::specs::Looks::highest))]
pub fn highest(state: u16) -> u16
    ensures { result ≡ highest state }
{
    if state % 32 == 15 {
        return 0;
    }
    state / 32 * 32 + 31
}
