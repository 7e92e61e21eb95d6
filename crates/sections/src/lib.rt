// A section of a room text: its count, and then so many lines of four numbers, read and stored in a lent buffer.
#![tactic(auto)]

ghost use Rattle.std.specs.Prelude.{◌≤◌};
ghost use Rattle.fourlines.specs.Storing.{BufferFits};
ghost use Rattle.sections.specs.Storing.{TakesSection};
ghost use Rattle.sections.specs.Answers.{section_found};

use fourlines;
use reader;
use textlines::broken::Broken;

// Reads a section, its count and then so many lines of four numbers, and stores these. Answers the count and the place after the section.
pub fn section(
    text: &[u8],
    at: usize,
    lowest: u32,
    highest: u32,
    numbers: &mut [i32],
    place: usize,
) -> Result<(usize, usize), Broken>
    requires { BufferFits text.now at numbers.old place × (lowest ≤ highest) × (highest ≤ 2147483647) }
    ensures { TakesSection lowest highest text.now at place numbers.old numbers.new (section_found result) }
{
    let number = reader::count_at(text, at, lowest, highest);
    let (count, first) = number.ok_or(Broken { passed: 0 })?;
    let lines = fourlines::fours(text, first, count, numbers, place);
    let past = lines.map_err(|broken| broken.after(1))?;
    Ok((count, past))
}
