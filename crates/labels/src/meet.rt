// Two labels at the ends of a step.
ghost use Rattle.std.specs.Prelude.{length};
ghost use Rattle.disjoint.specs.Forest.{Forest};
ghost use Rattle.disjoint.specs.Lent.{SameSlices};
ghost use Rattle.cellstate.specs.Labels.{Label};
ghost use Rattle.labels.specs.Growth.{Met};

use disjoint::find::Classes;
use unions::union;

// Joins the resources of two labels where the two depths and the step come to at most 32. Equal parents are one class: most labels that meet are joined already.
pub fn meet(classes: &mut Classes, state: u16, other: u16)
    requires { Forest classes.old.parents.now classes.old.ranks.now × Label (length classes.old.parents.now) state × Label (length classes.old.parents.now) other }
    ensures lent { SameSlices classes.old classes.new }
    ensures met { Met classes.old.parents.now classes.new.parents.now classes.new.ranks.now state other }
{
    let left = (state / 32 - 1) as usize;
    let right = (other / 32 - 1) as usize;
    if classes.parents[left] == classes.parents[right] {
        return;
    }
    if state % 32 + other % 32 > 31 {
        return;
    }
    union::union(classes, left, right);
}
