// What the program makes of a text: too long, broken at a line, too large, or a room.
#![tactic(auto)]

ghost use Rattle.textverdict.specs.Verdicts.{JudgesText, TextFits};
ghost use Rattle.textverdict.specs.Answers.{verdict_of};

use refusal::Refusal;
use roomlimits;
use roomtext;
use roomtext::Size;

// Reads a text of any length, in the order of the program's refusals: 8,192 bytes, the form, and then the other limits. Answers how large its room is.
pub fn read(text: &[u8], cells: &mut [u8], numbers: &mut [i32]) -> Result<Size, Refusal>
    requires { TextFits cells.old numbers.old }
    ensures { JudgesText text.now cells.old cells.new numbers.old numbers.new (verdict_of result) }
{
    if text.len() > 8192 {
        return Err(Refusal::TooLarge);
    }
    let room = roomtext::room(text, cells, numbers);
    let size = room.map_err(|broken| Refusal::Text {
        line: broken.line(),
    })?;
    if !roomlimits::in_limits(size.width, size.height, size.blockers, size.resources) {
        return Err(Refusal::TooLarge);
    }
    Ok(size)
}
