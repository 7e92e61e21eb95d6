// The fields of the resources of an accepted call, in buffers of exactly the used lengths.
#![tactic(auto)]

ghost use Rattle.std.specs.Prelude.{◌≡◌, length};
ghost use Rattle.fieldsinput.specs.Input.{as_input};
ghost use Rattle.seeds.specs.Sowing.{MaySeed};
ghost use Rattle.classes.specs.Classes.{FieldsFound};

use disjoint::find::Classes;
use fieldnumbers;
use fieldsinput::FieldsInput;
use join::search;
use seeds::seed;
use visits::queue::Queue;

// Joins the resources that chains of links join, numbers the fields, and clears the other buffers. The answer is how many fields there are.
pub fn numbers(
    given: FieldsInput<'_>,
    states: &mut [u16],
    queue: &mut [u32],
    parents: &mut [u16],
    ranks: &mut [u8],
    answers: &mut [u16],
) -> usize
    requires { MaySeed (as_input given) states.old queue.old parents.old ranks.old × (length answers.old ≡ length given.ends.now) }
    ensures { FieldsFound (as_input given.entry) states.new queue.new parents.new ranks.new answers.new result }
{
    let mut labelled = Queue {
        points: queue,
        len: 0,
    };
    let mut classes = Classes { parents, ranks };
    seed::seed(given, states, &mut labelled, &mut classes);
    search::search(
        states,
        &mut labelled,
        &mut classes,
        given.width as usize,
        given.height as usize,
    );
    fieldnumbers::numbered(states, labelled.points, &mut classes, answers)
}
