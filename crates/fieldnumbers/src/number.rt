// Numbering the fields by their smallest member.
ghost use Rattle.std.specs.Prelude.{◌≡◌, length};
ghost use Rattle.disjoint.specs.Rooted.{Rooted};
ghost use Rattle.numbering.specs.Fields.{FieldNumbers};

use numbering::give;

// Numbers the fields from 0 by their smallest member, where each resource's parent is its root. The answer is how many fields there are.
pub fn number(parents: &[u16], answers: &mut [u16]) -> usize
    requires { Rooted parents.now × (length answers.old ≡ length parents.now) }
    ensures { FieldNumbers parents.now answers.old answers.new result }
{
    // 65535 says that there is no number yet
    answers.fill(65535);
    let mut fields: usize = 0;
    for r in 0..parents.len() {
        fields = give::give(parents, answers, r, fields);
    }
    fields
}
