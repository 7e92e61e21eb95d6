// The public call: fields of resources, judged 1, 3, 8, 7.
ghost use Rattle.walkgraph.specs.FieldsPromise.{FieldsPromise};
ghost use Rattle.fieldsinput.specs.Input.{as_input};
ghost use Rattle.usedparts.specs.Lent.{lent};
ghost use Rattle.countanswer.specs.Answers.{joined_of};

use fieldsinput::FieldsInput;
use fieldsrefusals;
use fieldsrefusals::Lent;
use refusal::Refusal;
use usedparts;

// Fields of resources: the number of each resource's field, by its smallest member, and how many fields there are; or a refusal, and nothing is written.
pub fn fields(
    given: FieldsInput<'_>,
    states: &mut [u16],
    queue: &mut [u32],
    parents: &mut [u16],
    ranks: &mut [u8],
    answers: &mut [u16],
) -> Result<usize, Refusal>
    ensures { FieldsPromise (as_input given.entry)
        (lent states.old queue.old parents.old ranks.old answers.old)
        (lent states.new queue.new parents.new ranks.new answers.new) (joined_of result) }
{
    let lent = Lent {
        states: states.len(),
        queue: queue.len(),
        parents: parents.len(),
        ranks: ranks.len(),
        answers: answers.len(),
    };
    fieldsrefusals::judged(given, lent)?;
    let count = usedparts::joined(given, states, queue, parents, ranks, answers);
    Ok(count)
}
