// The access cells of one resource.
ghost use Rattle.seeds.specs.Sowing.{MaySow, Sows};
ghost use Rattle.visits.specs.Lent.{SameBuffers};

use accesslabel;
use disjoint::find::Classes;
use visits::plant;
use visits::queue::Queue;

// Labels the access cells of resource r, the places from..to.
pub fn sow(
    states: &mut [u16],
    queue: &mut Queue,
    classes: &mut Classes,
    width: u32,
    indices: &[u32],
    r: usize,
    from: usize,
    to: usize,
)
    requires { MaySow width indices.now r from to states.old queue.old.points.now classes.old.parents.now classes.old.ranks.now queue.old.len }
    ensures lent { SameBuffers queue.old classes.old queue.new classes.new }
    ensures sown { Sows width indices.now r from to states.old queue.old.points.now classes.old.parents.now classes.old.ranks.now queue.old.len
        states.new queue.new.points.now classes.new.parents.now classes.new.ranks.now queue.new.len }
{
    let label = accesslabel::label_of(r);
    for &index in &indices[from..to] {
        plant::plant(
            states,
            queue,
            classes,
            label,
            index as usize,
            accesslabel::point_of(index, width),
        );
    }
}
