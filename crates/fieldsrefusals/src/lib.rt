// The fields call's refusals, 1, 3, 8, 7: from lengths and shared slices alone.
#![tactic(auto)]

ghost use Rattle.std.specs.Prelude.{◌≡◌, not};
ghost use Rattle.walkgraph.specs.Refusals.{short_join, join_verdict};
ghost use Rattle.judge.specs.Verdicts.{verdict_of};
ghost use Rattle.fieldsrefusals.specs.Lengths.{lengths_of};

use accessrefusal;
use badgrid;
use fieldsinput::FieldsInput;
use refusal::Refusal;

// The lengths of the lent buffers.
// Stays: `judged` reads nothing else of the five buffers, and these in its parameters' place would make six parameters of its two.
#[derive(Clone, Copy)]
pub struct Lent {
    pub states: usize,
    pub queue: usize,
    pub parents: usize,
    pub ranks: usize,
    pub answers: usize,
}

// Whether the lent buffers are long enough for so many cells and resources.
#[tactic(auto, unfolding(walkgraph::specs::Refusals::short_join))]
fn room_ok(cells: usize, resources: usize, lent: Lent) -> bool
    ensures { result ≡ not (short_join cells resources (lengths_of lent)) }
{
    cells <= lent.states
        && cells <= lent.queue
        && resources <= lent.parents
        && resources <= lent.ranks
        && resources <= lent.answers
}

// The verdict on a call.
#[tactic(auto, using(crate::proofs::Cells::cells_are), unfolding(judge::specs::Verdicts::verdict_of, walkgraph::specs::Refusals::join_verdict, walkgraph::specs::Refusals::judge))]
pub fn judged(given: FieldsInput<'_>, lent: Lent) -> Result<(), Refusal>
    ensures { verdict_of result ≡ join_verdict given.entry.width given.entry.height given.entry.cells.now given.entry.indices.now given.entry.ends.now (lengths_of lent) }
{
    if !badgrid::grid_ok(given.width, given.height, given.cells) {
        return Err(Refusal::BadGrid);
    }
    if 512 < given.ends.len() {
        return Err(Refusal::Count);
    }
    if !accessrefusal::lists_ok(given.cells.len(), given.indices, given.ends) {
        return Err(Refusal::Access);
    }
    if !room_ok(given.cells.len(), given.ends.len(), lent) {
        return Err(Refusal::Scratch);
    }
    Ok(())
}
