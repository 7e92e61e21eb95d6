// Reading a cell of a field by the five numbers of a window record, as a caller in C or Rust hands them over.
#![tactic(auto)]

ghost use Rattle.std.specs.Prelude.{◌≡◌};
ghost use Rattle.walkgraph.specs.Reading.{read_part};
ghost use Rattle.reading.specs.Parts.{as_part};
ghost use Rattle.recordreading.specs.Records.{record_from};

use reading;
use reading::Part;
use window::record::Window;

// The part that belongs to the map's cell (x, y), of a buffer of length lanes, by a window record that the caller may have made up.
pub fn part_by_record(
    left: u32,
    top: u32,
    width: u32,
    height: u32,
    lanes: u32,
    length: usize,
    x: u32,
    y: u32,
) -> Part
    ensures { as_part result ≡ read_part (record_from left top width height lanes) length x y }
{
    let window = Window {
        left: left as usize,
        top: top as usize,
        width: width as usize,
        height: height as usize,
        lanes: lanes as usize,
    };
    reading::cell_part(window, length, x as usize, y as usize)
}
