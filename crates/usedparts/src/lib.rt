// The fields of an accepted call in the used parts of the buffers that it is lent.
#![tactic(auto)]

ghost use Rattle.std.specs.Prelude.{◌≡◌};
ghost use Rattle.walkgraph.specs.Refusals.{accepted};
ghost use Rattle.walkgraph.specs.FieldsPromise.{fields_verdict, FieldsMade};
ghost use Rattle.fieldsinput.specs.Input.{as_input};
ghost use Rattle.usedparts.specs.Lent.{lent};

use classes;
use fieldsinput::FieldsInput;

// The fields of an accepted call, in the used parts of the buffers: how many.
pub fn joined(
    given: FieldsInput<'_>,
    states: &mut [u16],
    queue: &mut [u32],
    parents: &mut [u16],
    ranks: &mut [u8],
    answers: &mut [u16],
) -> usize
    requires { fields_verdict (as_input given) (lent states.old queue.old parents.old ranks.old answers.old) ≡ accepted }
    ensures { FieldsMade (as_input given.entry)
        (lent states.old queue.old parents.old ranks.old answers.old)
        (lent states.new queue.new parents.new ranks.new answers.new) result }
{
    let size = given.cells.len();
    let resources = given.ends.len();
    classes::numbers(
        given,
        &mut states[..size],
        &mut queue[..size],
        &mut parents[..resources],
        &mut ranks[..resources],
        &mut answers[..resources],
    )
}
