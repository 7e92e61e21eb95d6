// Reading a cell of a field: by the window's record, which the caller may have made up, and the lanes that were lent to the field call.
#![tactic(auto)]

ghost use Rattle.std.specs.Prelude.{◌≡◌, ◌&&◌, ◌-◌, leb, ltb, length};
ghost use Rattle.walkgraph.specs.Reading.{fits, in_record, read_part};
ghost use Rattle.window.specs.Windows.{as_record};
ghost use Rattle.reading.specs.Parts.{as_part, part_of};

use window::record::Window;
use windowrecord;

// A part of the lent lanes: where it starts, and how long it is. Both are 0 for a cell outside.
#[repr(C)]
#[derive(Clone, Copy)]
pub struct Part {
    pub start: usize,
    pub length: usize,
}

// Whether a value is one of count from start on.
fn among(start: usize, count: usize, value: usize) -> bool
    ensures { result ≡ (leb start value && ltb (value - start) count) }
{
    start <= value && value - start < count
}

// Whether the record fits, and the map's cell (x, y) is in its window.
#[tactic(auto, using(std::proofs::lemmas::Bool::Decides::nat_tests), unfolding(walkgraph::specs::Reading::in_record))]
fn holds(window: Window, length: usize, x: usize, y: usize) -> bool
    ensures { result ≡ (fits (as_record window) length && in_record (as_record window) x y) }
{
    windowrecord::fits(window, length)
        && among(window.left, window.width, x)
        && among(window.top, window.height, y)
}

// The part that belongs to the map's cell (x, y), of a buffer of so many lanes.
pub fn cell_part(window: Window, length: usize, x: usize, y: usize) -> Part
    ensures { as_part result ≡ read_part (as_record window) length x y }
{
    if holds(window, length, x, y) {
        Part {
            start: windowrecord::start_of(window, x, y),
            length: window.lanes,
        }
    } else {
        Part {
            start: 0,
            length: 0,
        }
    }
}

// The lanes of the map's cell (x, y), or an empty part for a cell outside.
pub fn at(window: Window, lanes: &[i16], x: u32, y: u32) -> &[i16]
    ensures { result.now ≡ part_of (read_part (as_record window) (length lanes.now) x y) lanes.now }
{
    let part = cell_part(window, lanes.len(), x as usize, y as usize);
    let start = part.start;
    let end = start + part.length;
    &lanes[start..end]
}
