// A window's record, which the caller may have made up: whether a buffer of lanes holds it, and where the lanes of a cell start.
#![tactic(auto)]

ghost use Rattle.std.specs.Prelude.{◌≡◌, ◌+◌, ◌*◌, ◌-◌, ◌≤◌};
ghost use Rattle.walkgraph.specs.Reading.{fits};
ghost use Rattle.window.specs.Windows.{as_record};
ghost use Rattle.windowrecord.specs.Records.{has_room, OfCell};

use window::record::Window;

// Whether a record is in the limits of a map, and its lanes are no more than length.
#[tactic(auto, using(std::proofs::lemmas::Bool::Decides::nat_tests), unfolding(crate::specs::Records::has_room))]
fn room(window: Window, length: usize) -> bool
    requires { window.lanes ≤ 16 }
    ensures { result ≡ has_room (as_record window) length }
{
    window.width <= 1024 && window.height <= 1024 && window.padded() * window.lanes <= length
}

// Whether a record is one that a buffer of so many lanes holds.
#[tactic(auto, using(std::proofs::lemmas::Bool::Decides::nat_tests), unfolding(walkgraph::specs::Reading::fits, crate::specs::Records::has_room))]
pub fn fits(window: Window, length: usize) -> bool
    ensures { result ≡ fits (as_record window) length }
{
    matches!(window.lanes, 8 | 16) && room(window, length)
}

// Where the lanes of the cell start.
pub fn start_of(window: Window, x: usize, y: usize) -> usize
    requires { OfCell (as_record window) x y }
    ensures { result ≡ ((y - window.top + 1) * (window.width + 2) + (x - window.left + 1)) * window.lanes }
{
    let row = y - window.top + 1;
    let column = x - window.left + 1;
    (row * window.stride() + column) * window.lanes
}
