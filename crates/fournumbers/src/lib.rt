// A rectangle among numbers in fours.
#![tactic(auto)]

ghost use Rattle.std.specs.Prelude.{◌≡◌, ◌+◌, ◌*◌, ◌≤◌, length};
ghost use Rattle.walkgraph.specs.Painting.{rectangle};
ghost use Rattle.fournumbers.specs.Corners.{corners_of};

// The four numbers of a rectangle.
#[derive(Clone, Copy)]
pub struct Corners {
    pub left: i32,
    pub top: i32,
    pub right: i32,
    pub bottom: i32,
}

// The rectangle behind k others.
#[tactic(auto, unfolding(walkgraph::specs::Painting::rectangle))]
pub fn corners_at(numbers: &[i32], k: usize) -> Corners
    requires { 4 * k + 4 ≤ length numbers.now }
    ensures { corners_of result ≡ rectangle numbers.now k }
{
    let at = 4 * k;
    Corners {
        left: numbers[at],
        top: numbers[at + 1],
        right: numbers[at + 2],
        bottom: numbers[at + 3],
    }
}
