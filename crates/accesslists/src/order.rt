// The call's refusals, 1, 3, 4, 7: from lengths and shared slices alone.
ghost use Rattle.std.specs.Prelude.{◌≡◌};
ghost use Rattle.judge.specs.Verdicts.{verdict_of};
ghost use Rattle.listspromise.specs.AccessListsPromise.{lists_verdict};

use badgrid;
use judge::numbers;
use listspromise;
use manyrectangles::all;
use refusal::Refusal;
use rings::ring;

// The verdict on a call, by what it is given and the lengths of what it is lent.
pub fn judged(
    width: u32,
    height: u32,
    cells: &[u8],
    rectangles: &[i32],
    indices: usize,
    ends: usize,
) -> Result<(), Refusal>
    ensures { verdict_of result ≡ lists_verdict width height cells.now rectangles.now indices ends }
{
    if !badgrid::grid_ok(width, height, cells) {
        return Err(Refusal::BadGrid);
    }
    if !numbers::fours_ok(512, rectangles) {
        return Err(Refusal::Count);
    }
    let columns = width as usize;
    let rows = height as usize;
    let good = ring::accepted(rectangles, columns, rows);
    let count = rectangles.len() / 4;
    if good < count {
        return Err(Refusal::BadResource { first: good as u32 });
    }
    let listed = all::count_all(cells, rectangles, columns, rows);
    if !listspromise::room_ok(listed, count, indices, ends) {
        return Err(Refusal::Scratch);
    }
    Ok(())
}
