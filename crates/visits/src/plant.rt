// One access cell of a resource.
ghost use Rattle.std.specs.Prelude.{◌≡◌};
ghost use Rattle.visits.specs.Lent.{SameBuffers};
ghost use Rattle.visits.specs.Plants.{MayPlant, Planted};

use crate::queue::Queue;
use disjoint::find::Classes;
use labels::meet;

// Labels an access cell at depth 0 and puts it into the queue, or meets the label that it has. An unwalkable cell is left alone.
pub fn plant(
    states: &mut [u16],
    queue: &mut Queue,
    classes: &mut Classes,
    label: u16,
    index: usize,
    point: u32,
)
    requires { MayPlant states.old queue.old.points.now classes.old.parents.now classes.old.ranks.now queue.old.len label index }
    ensures lent { SameBuffers queue.old classes.old queue.new classes.new }
    ensures planted { Planted states.old queue.old.points.now classes.old.parents.now classes.old.ranks.now queue.old.len label index point
        states.new queue.new.points.now classes.new.parents.now classes.new.ranks.now queue.new.len }
{
    if states[index] == 0 {
        return;
    }
    if states[index] != 65535 {
        meet::meet(classes, label, states[index]);
        return;
    }
    states[index] = label;
    queue.push(point);
}
