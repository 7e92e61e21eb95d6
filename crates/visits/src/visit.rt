// One move from a cell: it is shut, labels the next cell, or meets its label.
ghost use Rattle.std.specs.Prelude.{◌+◌, ◌*◌, ◌-◌};
ghost use Rattle.visits.specs.Lent.{SameBuffers};
ghost use Rattle.visits.specs.Visits.{MoveFits, MayVisit, Visited};

use crate::queue::Queue;
use cellstate;
use disjoint::find::Classes;
use labels::meet;

// Makes the move by over - 1 columns and down - 1 rows from the cell at a point: labels the next cell one deeper and puts it into the queue, or meets the label that it has.
pub fn visit(
    states: &mut [u16],
    queue: &mut Queue,
    classes: &mut Classes,
    state: u16,
    index: usize,
    next: usize,
    point: u32,
    over: usize,
    down: usize,
)
    requires { MoveFits index next point over down
        × MayVisit states.old queue.old.points.now classes.old.parents.now classes.old.ranks.now queue.old.len state next (next + 1 - over) (index + over - 1) }
    ensures lent { SameBuffers queue.old classes.old queue.new classes.new }
    ensures visited { Visited states.old queue.old.points.now classes.old.parents.now classes.old.ranks.now queue.old.len
        state next (point + (down * 1024 + over) - 1025) (next + 1 - over) (index + over - 1)
        states.new queue.new.points.now classes.new.parents.now classes.new.ranks.now queue.new.len }
{
    if !cellstate::open(states, next, next + 1 - over, index + over - 1) {
        return;
    }
    if states[next] != 65535 {
        meet::meet(classes, state, states[next]);
        return;
    }
    states[next] = state + 1;
    queue.push(point + (down * 1024 + over) as u32 - 1025);
}
