// The roots of all members at once.
#![tactic(auto)]

ghost use Rattle.disjoint.specs.Forest.{Forest};
ghost use Rattle.roots.specs.Roots.{AtRoots};

use disjoint::find;

// Makes the parent of each member its root.
pub fn rooted(parents: &mut [u16], ranks: &[u8])
    requires { Forest parents.old ranks.now }
    ensures { AtRoots parents.old parents.new }
{
    for i in 0..parents.len() {
        find::find(parents, ranks, i);
    }
}
