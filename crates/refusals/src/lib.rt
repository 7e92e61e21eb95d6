// The field call's refusals 1 to 6, in the table's order: from lengths and shared slices alone.
#![tactic(auto)]

ghost use Rattle.std.specs.Prelude.{◌≡◌, not, ◌||◌, ◌/◌, ◌≤◌, length};
ghost use Rattle.walkgraph.specs.Refusals.{accepted, bad_span};
ghost use Rattle.fournumbers.specs.Corners.{corners_of};
ghost use Rattle.judge.specs.Verdicts.{verdict_of};
ghost use Rattle.refusals.specs.Verdicts.{map_tests, rest_tests};

use badgrid;
use fournumbers::Corners;
use judge::numbers;
use refusal::Refusal;
use rings::ring;

// Refusals 1 to 3: the map, the lane count, the number of resources.
#[tactic(auto, unfolding(judge::specs::Verdicts::verdict_of, crate::specs::Verdicts::map_tests, walkgraph::specs::Refusals::judge))]
pub fn judge_map(
    width: u32,
    height: u32,
    cells: &[u8],
    lanes: u32,
    resources: &[i32],
) -> Result<(), Refusal>
    ensures { verdict_of result ≡ map_tests width height cells.now lanes resources.now accepted }
{
    if !badgrid::grid_ok(width, height, cells) {
        return Err(Refusal::BadGrid);
    }
    if !numbers::lanes_ok(lanes) {
        return Err(Refusal::Lanes);
    }
    if !numbers::fours_ok(lanes as usize, resources) {
        return Err(Refusal::Count);
    }
    Ok(())
}

// Whether a target box has cells, all of them on the map.
fn on_map(targets: Corners, width: u32, height: u32) -> bool
    ensures { result ≡ not (bad_span width targets.left targets.right || bad_span height targets.top targets.bottom) }
{
    numbers::within(width, targets.left, targets.right)
        && numbers::within(height, targets.top, targets.bottom)
}

// Refusals 4 to 6, where 1 to 3 are not given: each resource, the number of blockers, the target box.
#[tactic(auto, unfolding(judge::specs::Verdicts::verdict_of, crate::specs::Verdicts::rest_tests, walkgraph::specs::Refusals::judge))]
pub fn judge_rest(
    width: u32,
    height: u32,
    blockers: &[i32],
    resources: &[i32],
    targets: Corners,
) -> Result<(), Refusal>
    requires { (width ≤ 1024) × (height ≤ 1024) × (length resources.now / 4 ≤ 16) }
    ensures { verdict_of result ≡ rest_tests width height blockers.now resources.now (corners_of targets) accepted }
{
    let good = ring::accepted(resources, width as usize, height as usize);
    if good < resources.len() / 4 {
        return Err(Refusal::BadResource { first: good as u32 });
    }
    if !numbers::fours_ok(4096, blockers) {
        return Err(Refusal::Blockers);
    }
    if !on_map(targets, width, height) {
        return Err(Refusal::Targets);
    }
    Ok(())
}
