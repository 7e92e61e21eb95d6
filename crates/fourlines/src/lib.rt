// Lines of four numbers in a room text, read and stored in a lent buffer: one, and as many as a count says.
#![tactic(auto)]

ghost use Rattle.fourlines.specs.Storing.{BufferFits, TakesFour, TakesFours};
ghost use Rattle.fourlines.specs.Answers.{line_taken, lines_found};

use reader;
use textlines::broken::Broken;

// Reads a line of four numbers and stores them from a place on. Answers the place after the line.
fn take(text: &[u8], at: usize, numbers: &mut [i32], place: usize) -> Option<usize>
    requires { BufferFits text.now at numbers.old place }
    ensures { TakesFour text.now at place numbers.old numbers.new (line_taken result) }
{
    let (four, past) = reader::four_at(text, at)?;
    numbers[place..place + 4].copy_from_slice(&four);
    Some(past)
}

// Reads so many lines of four numbers and stores them one after another. Answers the place after the lines.
pub fn fours(
    text: &[u8],
    at: usize,
    count: usize,
    numbers: &mut [i32],
    place: usize,
) -> Result<usize, Broken>
    requires { BufferFits text.now at numbers.old place }
    ensures { TakesFours text.now at count place numbers.old numbers.new (lines_found result) }
{
    let mut from = at;
    let mut to = place;
    for passed in 0..count {
        from = take(text, from, numbers, to).ok_or(Broken { passed })?;
        to += 4;
    }
    Ok(from)
}
