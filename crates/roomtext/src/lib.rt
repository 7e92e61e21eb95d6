// A room text, read section by section in one pass. What is read is stored in lent buffers; where a line breaks the form, the answer is how many stand before it.
#![tactic(auto)]

ghost use Rattle.roomtext.specs.Readings.{ReadsRoom, RoomFits};
ghost use Rattle.roomtext.specs.Answers.{room_found};

use rectangles;
use roomgrid;
use textlines;
use textlines::broken::Broken;

// How large a room is: the size of its map, and how many blockers and resources there are.
#[derive(Clone, Copy, Debug, PartialEq, Eq)]
pub struct Size {
    pub width: usize,
    pub height: usize,
    pub blockers: usize,
    pub resources: usize,
}

// Reads a room text whole: the rows, and then the rectangles. Nothing follows the last line.
pub fn room(text: &[u8], cells: &mut [u8], numbers: &mut [i32]) -> Result<Size, Broken>
    requires { RoomFits text.now cells.old numbers.old }
    ensures { ReadsRoom text.now cells.old cells.new numbers.old numbers.new (room_found result) }
{
    let map = roomgrid::grid(text, 0, cells)?;
    let rest = rectangles::tail(text, map.past, numbers);
    let counts = rest.map_err(|broken| broken.after(map.height + 1))?;
    if textlines::goes_on(text, counts.past) {
        return Err(Broken {
            passed: map.height + counts.blockers + counts.resources + 5,
        });
    }
    Ok(Size {
        width: map.width,
        height: map.height,
        blockers: counts.blockers,
        resources: counts.resources,
    })
}
