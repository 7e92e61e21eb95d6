// The search from all access cells at once, by one queue, to depth 16.
ghost use Rattle.join.specs.Search.{Seeded, Ran};
ghost use Rattle.visits.specs.Lent.{SameBuffers};

use crate::expand;
use cellstate;
use disjoint::find::Classes;
use picks::directions::Directions;
use visits::queue::Queue;

// Labels cells to depth 16 from the labelled access cells, and joins labels that meet: takes cells from the queue until none is left or the next has depth 16.
// Each step from such a cell to a shallower one has been looked at from there. The eight directions are a table, made once.
pub fn search(
    states: &mut [u16],
    queue: &mut Queue,
    classes: &mut Classes,
    width: usize,
    height: usize,
)
    requires { Seeded width height states.old queue.old.points.now classes.old.parents.now classes.old.ranks.now queue.old.len }
    ensures lent { SameBuffers queue.old classes.old queue.new classes.new }
    ensures ran { Ran width height states.old classes.old.parents.now states.new queue.new.points.now classes.new.parents.now classes.new.ranks.now }
{
    let directions = Directions {
        over: [0, 1, 2, 0, 2, 0, 1, 2],
        down: [0, 0, 0, 1, 1, 2, 2, 2],
        steps: [
            0,
            1,
            2,
            width,
            width + 2,
            2 * width,
            2 * width + 1,
            2 * width + 2,
        ],
    };
    let mut picked: [u8; 9] = [0; 9];
    let mut head: usize = 0;
    // Stays: the queue grows while it is read, so no iterator over it can be held.
    while head < queue.len {
        if cellstate::deepest(states, width, queue.points[head]) {
            return;
        }
        expand::expand(
            states,
            queue,
            classes,
            width,
            height,
            head,
            &directions,
            &mut picked,
        );
        head += 1;
    }
}
