// The sections of a room text that are rectangles: blockers, resources and the target box, read one after another and stored in a lent buffer.
#![tactic(auto)]

ghost use Rattle.fourlines.specs.Storing.{BufferFits};
ghost use Rattle.rectangles.specs.Readings.{TakesEnd, TakesTail};
ghost use Rattle.rectangles.specs.Answers.{end_found, tail_found};

use sections;
use textlines::broken::Broken;

// How many blockers and resources there are, and the place after the targets.
#[derive(Clone, Copy, Debug, PartialEq, Eq)]
pub struct Counts {
    pub blockers: usize,
    pub resources: usize,
    pub past: usize,
}

// Reads the resources and the target box, and stores them from a place on. Answers how many resources there are and the place after the targets.
fn end(text: &[u8], at: usize, numbers: &mut [i32], place: usize) -> Result<(usize, usize), Broken>
    requires { BufferFits text.now at numbers.old place }
    ensures { TakesEnd text.now at place numbers.old numbers.new (end_found result) }
{
    let (resources, from) = sections::section(text, at, 0, 2147483647, numbers, place)?;
    let targets = sections::section(text, from, 1, 1, numbers, place + 4 * resources);
    let (_, past) = targets.map_err(|broken| broken.after(resources + 1))?;
    Ok((resources, past))
}

// Reads the blockers, the resources and the target box, and stores them from the buffer's start on.
pub fn tail(text: &[u8], at: usize, numbers: &mut [i32]) -> Result<Counts, Broken>
    requires { BufferFits text.now at numbers.old 0 }
    ensures { TakesTail text.now at numbers.old numbers.new (tail_found result) }
{
    let (blockers, from) = sections::section(text, at, 0, 2147483647, numbers, 0)?;
    let rest = end(text, from, numbers, 4 * blockers);
    let (resources, past) = rest.map_err(|broken| broken.after(blockers + 1))?;
    Ok(Counts {
        blockers,
        resources,
        past,
    })
}
