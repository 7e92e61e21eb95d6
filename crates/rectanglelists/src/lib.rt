// The lists of the access cells of many rectangles, one after another, with an end for each.
#![tactic(auto)]

ghost use Rattle.std.specs.Prelude.{length};
ghost use Rattle.manyrectangles.specs.Listing.{lent, AllFit, AllListed};

use manyrectangles::one;

// Lists the access cells of all rectangles, and for each where they end; answers how many there are.
pub fn list_all(
    cells: &[u8],
    rectangles: &[i32],
    width: usize,
    height: usize,
    indices: &mut [u32],
    ends: &mut [u32],
) -> usize
    requires { AllFit width height cells.now rectangles.now (length indices.old) (length ends.old) }
    ensures { AllListed width height cells.now rectangles.now (lent indices.old ends.old) (lent indices.new ends.new) result }
{
    let count = rectangles.len() / 4;
    let mut used: usize = 0;
    for k in 0..count {
        let end = one::list_one(cells, rectangles, k, width, height, indices, used);
        ends[k] = end as u32;
        used = end;
    }
    used
}
