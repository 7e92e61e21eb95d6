// The field call: judges its arguments, then answers with a refusal, with nothing made, or with the field made.
#![tactic(auto)]

pub mod buffers;

ghost use Rattle.walkgraph.specs.Promise.{FieldPromise};
ghost use Rattle.cells.specs.Boxes.{reach};
ghost use Rattle.fournumbers.specs.Corners.{corners_of};
ghost use Rattle.plan.specs.Plans.{input_of};
ghost use Rattle.field.specs.Buffers.{lent_of, SameSlices};
ghost use Rattle.fieldanswer.specs.Answers.{answer_of};

use crate::buffers::Buffers;
use fieldanswer::Made;
use fournumbers::Corners;
use make;
use plan;
use refusal::Refusal;
use window::record::Window;

// The field of resources around a target box, on a map of walk cells painted with blockers.
pub fn field(
    width: u32,
    height: u32,
    cells: &[u8],
    lanes: u32,
    blockers: &[i32],
    resources: &[i32],
    targets: Corners,
    buffers: &mut Buffers,
) -> Result<Made, Refusal>
    ensures promise { FieldPromise reach (input_of width height cells.now lanes blockers.now resources.now (corners_of targets))
        (lent_of buffers.old) (lent_of buffers.new) (answer_of result) }
    ensures same_slices { SameSlices buffers.old buffers.new }
{
    let lent = buffers.lengths();
    let Some(site) = plan::plan_of(
        width, height, cells, lanes, blockers, resources, targets, lent,
    )?
    else {
        return Ok(Made {
            window: Window::nothing(lanes as usize),
            sweeps: 0,
        });
    };
    let window = site.window;
    let sweeps = make::make(
        site,
        cells,
        blockers,
        resources,
        buffers.lanes,
        buffers.walk,
        buffers.flags,
        buffers.rows,
        buffers.versions,
        buffers.pulled_down,
        buffers.pulled_up,
    );
    Ok(Made { window, sweeps })
}
