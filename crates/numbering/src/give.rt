// The number of a resource's field. A root's own answer is the number of its field, so the answers serve as the table of roots.
ghost use Rattle.std.specs.Prelude.{◌+◌, ◌<◌, length};
ghost use Rattle.numbering.specs.Fields.{Given};

// Gives resource r the number of its root. A root that has none takes the next one. The answer is how many numbers are in use then.
pub fn give(parents: &[u16], answers: &mut [u16], r: usize, fields: usize) -> usize
    requires { Given parents.now answers.old r fields × (r < length parents.now) }
    ensures { Given parents.now answers.new (r + 1) result }
{
    let root = usize::from(parents[r]);
    if answers[root] == 65535 {
        answers[root] = fields as u16;
        answers[r] = fields as u16;
        return fields + 1;
    }
    answers[r] = answers[root];
    fields
}
