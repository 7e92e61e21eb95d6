// The sheet of a text that was read, put on a page: its room is drawn.
ghost use Rattle.textverdict.specs.Answers.{verdict_of};
ghost use Rattle.sheets.specs.SheetText.{ReadFits, PutsVerdict};

use crate::drawing;
use page::{Page, lines};
use refusal::Refusal;
use roomtext::Size;

// Puts the sheet of the room that was read, or the line of its refusal.
pub fn drawn(page: &mut Page<'_>, judged: Result<Size, Refusal>, cells: &[u8], numbers: &[i32])
    requires { ReadFits (verdict_of judged) cells.now numbers.now page.old }
    ensures { PutsVerdict cells.now numbers.now page.old page.new (verdict_of judged) }
{
    match judged {
        Err(refusal) => lines::refusal(page, refusal.number(), refusal.place()),
        Ok(size) => {
            let count = size.blockers + size.resources;
            let from = 4 * size.blockers;
            let to = 4 * count;
            let targets = fournumbers::corners_at(numbers, count);
            drawing::draw(
                page,
                size.width as u32,
                size.height as u32,
                &cells[..size.width * size.height],
                &numbers[..from],
                &numbers[from..to],
                targets,
            )
        }
    }
}
