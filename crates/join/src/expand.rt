// One cell of the queue: all its moves.
ghost use Rattle.join.specs.Search.{Turning, Expanded};
ghost use Rattle.visits.specs.Lent.{SameBuffers};

use disjoint::find::Classes;
use picks::directions::Directions;
use picks::list;
use visits::queue::Queue;
use visits::visit;

// Makes the moves of the queue's cell at head.
pub fn expand(
    states: &mut [u16],
    queue: &mut Queue,
    classes: &mut Classes,
    width: usize,
    height: usize,
    head: usize,
    directions: &Directions,
    picked: &mut [u8; 9],
)
    requires { Turning width height states.old queue.old.points.now classes.old.parents.now classes.old.ranks.now
        directions.now.over directions.now.down directions.now.steps picked.old queue.old.len head }
    ensures lent { SameBuffers queue.old classes.old queue.new classes.new }
    ensures expanded { Expanded width height states.old classes.old.parents.now
        states.new queue.new.points.now classes.new.parents.now classes.new.ranks.now picked.new queue.new.len head }
{
    let point = queue.points[head];
    let x = (point % 1024) as usize;
    let y = (point / 1024) as usize;
    let index = y * width + x;
    let state = states[index];
    let count = list::listed(states, width, height, x, y, state, directions, picked);
    for &number in &picked[..count] {
        let k = usize::from(number);
        visit::visit(
            states,
            queue,
            classes,
            state,
            index,
            index + directions.steps[k] - width - 1,
            point,
            directions.over[k],
            directions.down[k],
        );
    }
}
