// The public call: the access cells of many rectangles, judged 1, 3, 4, 7.
ghost use Rattle.listspromise.specs.AccessListsPromise.{AccessListsPromise};
ghost use Rattle.manyrectangles.specs.Listing.{lent};
ghost use Rattle.countanswer.specs.Answers.{listed_of};

use crate::order;
use rectanglelists;
use refusal::Refusal;

// The access cells of many rectangles: the indices of those of the first, then of the next, and for each how many stand before the end of its own; or a refusal, and nothing is written.
pub fn access_lists(
    width: u32,
    height: u32,
    cells: &[u8],
    rectangles: &[i32],
    indices: &mut [u32],
    ends: &mut [u32],
) -> Result<usize, Refusal>
    ensures { AccessListsPromise width height cells.now rectangles.now
        (lent indices.old ends.old) (lent indices.new ends.new) (listed_of result) }
{
    order::judged(width, height, cells, rectangles, indices.len(), ends.len())?;
    Ok(rectanglelists::list_all(
        cells,
        rectangles,
        width as usize,
        height as usize,
        indices,
        ends,
    ))
}
