// The sheet of a room, put on a page: the field call judges the room and makes its field, and the sheet shows what it answers.
ghost use Rattle.fournumbers.specs.Corners.{corners_of};
ghost use Rattle.plan.specs.Plans.{input_of};
ghost use Rattle.sheets.specs.Drawings.{DrawFits, PutsDrawing};

use crate::answersheet;
use field::buffers::Buffers;
use fournumbers::Corners;
use page::Page;

// Puts the sheet of a room, or the line of its refusal.
pub fn draw(
    page: &mut Page<'_>,
    width: u32,
    height: u32,
    cells: &[u8],
    blockers: &[i32],
    resources: &[i32],
    targets: Corners,
)
    requires { DrawFits width height page.old }
    ensures { PutsDrawing (input_of width height cells.now 8 blockers.now resources.now (corners_of targets))
        page.old page.new }
{
    let mut lanes: [i16; 30752] = [0; 30752];
    let mut walk: [u8; 3844] = [0; 3844];
    let mut flags: [u8; 3844] = [0; 3844];
    let mut rows: [u16; 120] = [0; 120];
    let mut versions: [u32; 62] = [0; 62];
    let mut pulled_down: [u32; 62] = [0; 62];
    let mut pulled_up: [u32; 62] = [0; 62];
    let mut buffers = Buffers {
        lanes: &mut lanes,
        walk: &mut walk,
        flags: &mut flags,
        rows: &mut rows,
        versions: &mut versions,
        pulled_down: &mut pulled_down,
        pulled_up: &mut pulled_up,
    };
    let found = field::field(
        width,
        height,
        cells,
        8,
        blockers,
        resources,
        targets,
        &mut buffers,
    );
    answersheet::answered(
        page,
        width,
        height,
        cells,
        resources,
        targets,
        found,
        buffers.lanes,
    );
}
