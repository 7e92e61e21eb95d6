// The classes of a disjoint set: before any are joined, and the root of a member.
ghost use Rattle.std.specs.Prelude.{◌≡◌, ◌≤◌, ◌<◌, length};
ghost use Rattle.disjoint.specs.Forest.{Forest, Begun, Found};
ghost use Rattle.disjoint.specs.Lent.{SameSlices};

// A disjoint set in two lent slices: the parent of each member, and its rank.
#[derive(Drop)]
pub struct Classes<'a> {
    pub parents: &'a mut [u16],
    pub ranks: &'a mut [u8],
}

impl<'a> Classes<'a> {
    // Makes each member a class by itself.
    pub fn begin(&mut self)
        requires { (length self.old.ranks.now ≡ length self.old.parents.now) × (length self.old.parents.now ≤ 512) }
        ensures lent { SameSlices self.old self.new }
        ensures begun { Begun self.old.parents.now self.new.parents.now self.new.ranks.now }
    {
        for (i, parent) in self.parents.iter_mut().enumerate() {
            *parent = i as u16;
        }
        self.ranks.fill(0);
    }

    // The root of a member. The path to it is shortened.
    pub fn find(&mut self, member: usize) -> usize
        requires { Forest self.old.parents.now self.old.ranks.now × (member < length self.old.parents.now) }
        ensures lent { SameSlices self.old self.new }
        ensures ranks { self.new.ranks.now ≡ self.old.ranks.now }
        ensures found { Found self.old.parents.now self.new.parents.now self.old.ranks.now member result }
    {
        find_lent(self.parents, self.ranks, member)
    }
}

// The root of a member of a set that is lent to be changed. A function by itself: the borrow checker does not cover a shared use of
// one slice of `Classes` beside a use of the other.
fn find_lent(parents: &mut [u16], ranks: &mut [u8], member: usize) -> usize
    requires { Forest parents.old ranks.old × (member < length parents.old) }
    ensures ranks { ranks.new ≡ ranks.old }
    ensures found { Found parents.old parents.new ranks.old member result }
{
    find(parents, ranks, member)
}

// The root of a member, found by following parents. The path to it is shortened on the way back.
pub fn find(parents: &mut [u16], ranks: &[u8], member: usize) -> usize
    requires { Forest parents.old ranks.now × (member < length parents.old) }
    ensures { Found parents.old parents.new ranks.now member result }
{
    let parent = parents[member] as usize;
    if parent == member {
        return member;
    }
    let root = find(parents, ranks, parent);
    parents[member] = root as u16;
    root
}
