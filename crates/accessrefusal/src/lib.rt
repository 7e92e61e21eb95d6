// Refusal 8: the access cells of all resources, as one list of indices with an end for each resource.
#![tactic(auto)]

ghost use Rattle.std.specs.Prelude.{◌≡◌, not, ◌&&◌, ltb, eqb};
ghost use Rattle.walkgraph.specs.Refusals.{all, never_fall, last_end, bad_access};

// No end is below the one before it. The test of two ends is written out, so that an edit can turn it.
fn never_fall(ends: &[u32]) -> bool
    ensures { result ≡ never_fall 0 ends.now }
{
    ends.is_sorted_by(|before, end| before <= end)
}

// The ends never fall, and the last of them is the length of the list: 0 where there is none.
fn ends_ok(listed: usize, ends: &[u32]) -> bool
    ensures { result ≡ (never_fall 0 ends.now && eqb (last_end 0 ends.now) listed) }
{
    never_fall(ends) && ends.last().copied().unwrap_or(0) as usize == listed
}

// Every index is one of a cell.
fn below(cells: usize, indices: &[u32]) -> bool
    ensures { result ≡ all (λ i. ltb i cells) indices.now }
{
    indices.iter().all(|index| (*index as usize) < cells)
}

// Ends that never fall, the last one the length of the list, and every index one of a cell.
pub fn lists_ok(cells: usize, indices: &[u32], ends: &[u32]) -> bool
    ensures { result ≡ not (bad_access cells indices.now ends.now) }
{
    ends_ok(indices.len(), ends) && below(cells, indices)
}
