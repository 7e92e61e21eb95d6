// The library function of the program `sheet`: a room's text in, its sheet's text out.
#![tactic(auto)]

mod answersheet;
mod drawing;
mod roomsheet;

ghost use Rattle.sheets.specs.Promise.{SheetPromise};

use page::Page;

// Writes the sheet of a text, or the line of its refusal, to the start of a buffer; answers how many bytes that were. A buffer that is too short gets nothing, and the answer is 0.
pub fn sheet(text: &[u8], out: &mut [u8]) -> usize
    ensures { SheetPromise text.now out.old out.new result }
{
    let mut bytes = roomlimits::sheet();
    let mut cells: [u8; 8192] = [0; 8192];
    let mut numbers: [i32; 8192] = [0; 8192];
    let judged = textverdict::read(text, &mut cells, &mut numbers);
    let mut page = Page {
        bytes: &mut bytes,
        at: 0,
    };
    roomsheet::drawn(&mut page, judged, &cells, &numbers);
    let end = page.at;
    delivery::delivered(&page.bytes[..end], out)
}
