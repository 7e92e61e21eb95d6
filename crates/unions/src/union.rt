// Joining classes, by rank.
ghost use Rattle.std.specs.Prelude.{◌<◌, length};
ghost use Rattle.disjoint.specs.Forest.{Forest};
ghost use Rattle.disjoint.specs.Lent.{SameSlices};
ghost use Rattle.unions.specs.Joining.{United};

use byrank;
use disjoint::find::Classes;

// Joins the classes of two members: the root of lower rank goes under the other.
pub fn union(classes: &mut Classes, left: usize, right: usize)
    requires { Forest classes.old.parents.now classes.old.ranks.now × (left < length classes.old.parents.now) × (right < length classes.old.parents.now) }
    ensures lent { SameSlices classes.old classes.new }
    ensures united { United classes.old.parents.now classes.new.parents.now classes.new.ranks.now left right }
{
    let a = classes.find(left);
    let b = classes.find(right);
    if a == b {
        return;
    }
    let low = byrank::lower(a, b, classes.ranks[a], classes.ranks[b]);
    let high = a + b - low;
    classes.parents[low] = high as u16;
    classes.ranks[high] = byrank::raised(classes.ranks[low], classes.ranks[high]);
}
