// The sheet of what the field call answers, put on a page: where the field is made its resources' fields are found too, and the sheet shows both.
ghost use Rattle.fournumbers.specs.Corners.{corners_of};
ghost use Rattle.fieldanswer.specs.Answers.{answer_of};
ghost use Rattle.sheets.specs.Shown.{AnswerFits, PutsAnswer};

use fieldanswer::Made;
use fournumbers::Corners;
use page::{Page, lines};
use refusal::Refusal;
use targetlines::Field;

// Puts the sheet of a room whose field is made, or the line of its refusal.
pub fn answered(
    page: &mut Page<'_>,
    width: u32,
    height: u32,
    cells: &[u8],
    resources: &[i32],
    targets: Corners,
    found: Result<Made, Refusal>,
    lanes: &[i16],
)
    requires { AnswerFits width height cells.now resources.now (corners_of targets) page.old (answer_of found) }
    ensures { PutsAnswer width height cells.now resources.now (corners_of targets) lanes.now
        page.old page.new (answer_of found) }
{
    match found {
        Err(refusal) => lines::refusal(page, refusal.number(), refusal.place()),
        Ok(made) => {
            let mut answers: [u16; 8] = [0; 8];
            let fields = groups::groups(width, height, cells, resources, &mut answers);
            let boxed = targetbox::cells_of(targets);
            let field = Field {
                window: made.window,
                lanes,
                resources: resources.len() / 4,
            };
            sheettext::sheet(page, field, made.sweeps, boxed, fields, &answers)
        }
    }
}
