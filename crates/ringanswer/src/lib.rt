// What access of a rectangle answers once its ring is found: the list of its walkable cells, or refusal 7.
#![tactic(auto)]

ghost use Rattle.std.specs.Prelude.{length};
ghost use Rattle.cells.specs.Boxes.{box_of};
ghost use Rattle.ringruns.specs.Runs.{OnMap};
ghost use Rattle.ringrows.specs.Rows.{ring_places};
ghost use Rattle.ringanswer.specs.Answers.{RingListed};

use cells::boxes::Ring;
use refusal::Refusal;
use ringrows::rows;

// Lists the walkable cells of a ring, or refuses a buffer that is too short for them.
pub fn list_ring(cells: &[u8], ring: Ring, width: usize, out: &mut [u32]) -> Result<usize, Refusal>
    requires { OnMap width (length cells.now) (box_of ring.ring) (box_of ring.body) }
    ensures { RingListed (ring_places cells.now width (box_of ring.ring) (box_of ring.body)) out.old out.new result }
{
    let needed = rows::count_rows(cells, ring, width);
    if out.len() < needed {
        return Err(Refusal::Scratch);
    }
    Ok(rows::list_rows(cells, ring, width, out))
}
