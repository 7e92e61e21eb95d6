// What access of many rectangles promises, and whether its buffers are long enough.
#![tactic(auto)]

ghost use Rattle.std.specs.Prelude.{◌≡◌, not};
ghost use Rattle.listspromise.specs.AccessListsPromise.{short_lists};

// Whether so many indices and ends are lent as so many access cells and rectangles need.
#[tactic(auto, unfolding(crate::specs::AccessListsPromise::short_lists))]
pub fn room_ok(count: usize, rectangles: usize, indices: usize, ends: usize) -> bool
    ensures { result ≡ not (short_lists count rectangles indices ends) }
{
    count <= indices && rectangles <= ends
}
