// The moves that a cell makes, listed.
ghost use Rattle.std.specs.Prelude.{◌≡◌, ◌&&◌, ◌<◌, length};
ghost use Rattle.picks.specs.Picks.{inner};
ghost use Rattle.picks.specs.Listed.{OnMap, Table, Listed};

use crate::directions::Directions;
use crate::pick;
use cellstate;

// A column or a row has one on each side.
#[tactic(auto, unfolding(crate::specs::Picks::inner))]
fn inner(place: usize, size: usize) -> bool
    requires { place < size }
    ensures { result ≡ inner place size }
{
    0 < place && place + 1 < size
}

// A cell has eight neighbours.
fn central(width: usize, height: usize, x: usize, y: usize) -> bool
    requires { (x < width) × (y < height) }
    ensures { result ≡ (inner x width && inner y height) }
{
    inner(x, width) && inner(y, height)
}

// Lists the moves from the cell (x, y) with that state: at the map's edge all that stay in it, else those to states that it looks at; answers how many there are.
pub fn listed(
    states: &[u16],
    width: usize,
    height: usize,
    x: usize,
    y: usize,
    state: u16,
    directions: &Directions,
    list: &mut [u8; 9],
) -> usize
    requires { OnMap width height states.now x y × Table width directions.now.over directions.now.down directions.now.steps × (length list.old ≡ 9) }
    ensures { Listed width height states.now directions.now.over directions.now.down directions.now.steps x y state list.new result }
{
    if !central(width, height, x, y) {
        return pick::edge(
            width,
            height,
            x,
            y,
            &directions.over,
            &directions.down,
            list,
        );
    }
    pick::near(
        states,
        width,
        y * width + x,
        &directions.steps,
        cellstate::highest(state),
        list,
    )
}
