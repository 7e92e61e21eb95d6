// What the search of the fields starts from.
ghost use Rattle.std.specs.Prelude.{length};
ghost use Rattle.fieldsinput.specs.Input.{as_input};
ghost use Rattle.seeds.specs.Sown.{Sown};
ghost use Rattle.seeds.specs.Sowing.{MaySeed};
ghost use Rattle.visits.specs.Lent.{SameBuffers};

use crate::{ground, sow};
use accesslabel;
use disjoint::find::Classes;
use fieldsinput::FieldsInput;
use visits::queue::Queue;

// Labels the access cells of all resources on the map's states, each resource a class by itself but where two share a cell. The queue starts anew.
pub fn seed(given: FieldsInput<'_>, states: &mut [u16], queue: &mut Queue, classes: &mut Classes)
    requires { MaySeed (as_input given) states.old queue.old.points.now classes.old.parents.now classes.old.ranks.now }
    ensures lent { SameBuffers queue.old classes.old queue.new classes.new }
    ensures sown { Sown (as_input given.entry) (length given.entry.ends.now)
        states.new queue.new.points.now classes.new.parents.now classes.new.ranks.now queue.new.len }
{
    ground::ground(given.cells, states);
    queue.len = 0;
    classes.begin();
    for (r, &end) in given.ends.iter().enumerate() {
        let from = accesslabel::start_of(given.ends, r);
        sow::sow(
            states,
            queue,
            classes,
            given.width,
            given.indices,
            r,
            from,
            end as usize,
        );
    }
}
