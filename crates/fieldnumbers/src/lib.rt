// The numbers of the fields from the disjoint set of resources, and the buffers that end as 0.
#![tactic(auto)]

mod number;

ghost use Rattle.std.specs.Prelude.{◌≡◌, length};
ghost use Rattle.disjoint.specs.Forest.{Forest};
ghost use Rattle.disjoint.specs.Lent.{SameSlices};
ghost use Rattle.roots.specs.Roots.{AtRoots};
ghost use Rattle.fieldnumbers.specs.NumbersMade.{NumbersMade};

use disjoint::find::Classes;
use roots;
use zeros;

// Numbers the fields by the roots of the resources, and clears the other buffers. The answer is how many fields there are.
pub fn numbered(
    states: &mut [u16],
    queue: &mut [u32],
    classes: &mut Classes,
    answers: &mut [u16],
) -> usize
    requires { Forest classes.old.parents.now classes.old.ranks.now × (length answers.old ≡ length classes.old.parents.now) }
    ensures lent { SameSlices classes.old classes.new }
    ensures made { NumbersMade classes.old.parents.now answers.old
        states.new queue.new classes.new.parents.now classes.new.ranks.now answers.new result }
{
    rooted(classes.parents, classes.ranks);
    let count = number::number(classes.parents, answers);
    zeros::clear(states, queue, classes.parents, classes.ranks);
    count
}

// Makes the parent of each member its root. A function by itself, as `find_lent` of disjoint is.
fn rooted(parents: &mut [u16], ranks: &mut [u8])
    requires { Forest parents.old ranks.old }
    ensures ranks { ranks.new ≡ ranks.old }
    ensures rooted { AtRoots parents.old parents.new }
{
    roots::rooted(parents, ranks);
}
