// The public call: access of a rectangle, judged 1, 4, 7.
ghost use Rattle.walkgraph.specs.AccessPromise.{AccessPromise};
ghost use Rattle.fournumbers.specs.Corners.{corners_of};
ghost use Rattle.countanswer.specs.Answers.{listed_of};

use badgrid;
use fournumbers::Corners;
use refusal::Refusal;
use ringanswer;
use rings::ring;

// Access of a rectangle: the indices of its access cells by row, then column, and how many there are; or a refusal, and nothing is written.
pub fn access(
    width: u32,
    height: u32,
    cells: &[u8],
    rectangle: Corners,
    out: &mut [u32],
) -> Result<usize, Refusal>
    ensures { AccessPromise width height cells.now (corners_of rectangle) out.old out.new (listed_of result) }
{
    if !badgrid::grid_ok(width, height, cells) {
        return Err(Refusal::BadGrid);
    }
    let columns = width as usize;
    let found = ring::ring_of(rectangle, columns, height as usize);
    let Some(ring) = found else {
        return Err(Refusal::BadResource { first: 0 });
    };
    ringanswer::list_ring(cells, ring, columns, out)
}
