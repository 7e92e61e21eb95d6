// Where the access cells of a resource start among the indices, and the label and the point of one.
#![tactic(auto)]

ghost use Rattle.std.specs.Prelude.{◌≡◌, ◌≤◌, ◌<◌, length};
ghost use Rattle.walkgraph.specs.FieldsPromise.{start_of};
ghost use Rattle.accesslabel.specs.AccessLabel.{label_of, point_of};

// Where the indices of a resource start: at the end of the one before it, and at 0 for the first.
pub fn start_of(ends: &[u32], resource: usize) -> usize
    requires { resource < length ends.now }
    ensures { result ≡ start_of ends.now resource }
{
    if resource == 0 {
        return 0;
    }
    ends[resource - 1] as usize
}

// The label of a resource's access cells: the resource at depth 0.
// Stays: asks for what fits, and `From` asks for nothing.
pub fn label_of(resource: usize) -> u16
    requires { resource < 512 }
    ensures { result ≡ label_of resource }
{
    (32 * (resource + 1)) as u16
}

// The point of the cell at an index: 1,024 times the row, plus the column.
pub fn point_of(index: u32, width: u32) -> u32
    requires { (1 ≤ width) × (width ≤ 1024) × (index < 1048576) }
    ensures { result ≡ point_of width index }
{
    index / width * 1024 + index % width
}
