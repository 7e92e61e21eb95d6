// The static library's exports, for C and for Rust: the field call, reading a cell, access of a rectangle and of many,
// the fields call, and the sheet of a room text. None requires anything of what it is given.
#![tactic(auto)]

ghost use Rattle.std.specs.Prelude.{◌≡◌, length};
ghost use Rattle.walkgraph.specs.Reading.{read_part};
ghost use Rattle.cells.specs.Boxes.{reach};
ghost use Rattle.rings.specs.Rings.{corners};
ghost use Rattle.plan.specs.Plans.{input_of};
ghost use Rattle.make.specs.Makes.{lent};
ghost use Rattle.reading.specs.Parts.{as_part};
ghost use Rattle.recordreading.specs.Records.{record_from};
ghost use Rattle.fieldsinput.specs.Input as fieldsinput;
ghost use Rattle.usedparts.specs.Lent as fields;
ghost use Rattle.manyrectangles.specs.Listing as lists;
ghost use Rattle.cerandool.specs.Exports.{FieldExported, AccessExported, AccessListsExported, FieldsExported};
ghost use Rattle.sheets.specs.Promise.{SheetPromise};

use access;
use accesslists;
use answernumbers;
use answernumbers::FieldAnswer;
use countanswer;
use countanswer::CountAnswer;
use field::buffers::Buffers;
use fields;
use fieldsinput::FieldsInput;
use fournumbers::Corners;
use reading::Part;
use recordreading;
use sheets;

// The field of resources around a target box, on a map of walk cells painted with blockers.
#[unsafe(no_mangle)]
pub extern "C" fn cerandool_field(
    width: u32,
    height: u32,
    cells: &[u8],
    lanes: u32,
    blockers: &[i32],
    resources: &[i32],
    left: i32,
    top: i32,
    right: i32,
    bottom: i32,
    lane_values: &mut [i16],
    walk: &mut [u8],
    flags: &mut [u8],
    rows: &mut [u16],
    versions: &mut [u32],
    pulled_down: &mut [u32],
    pulled_up: &mut [u32],
) -> FieldAnswer
    ensures { FieldExported reach (input_of width height cells.now lanes blockers.now resources.now (corners left top right bottom))
        (lent lane_values.old walk.old flags.old rows.old versions.old pulled_down.old pulled_up.old)
        (lent lane_values.new walk.new flags.new rows.new versions.new pulled_down.new pulled_up.new) result }
{
    let targets = Corners {
        left,
        top,
        right,
        bottom,
    };
    let mut buffers = Buffers {
        lanes: lane_values,
        walk,
        flags,
        rows,
        versions,
        pulled_down,
        pulled_up,
    };
    let answer = field::field(
        width,
        height,
        cells,
        lanes,
        blockers,
        resources,
        targets,
        &mut buffers,
    );
    answernumbers::field_numbers(answer)
}

// The part of the lent lanes that belongs to the map's cell (x, y), by a window record that the caller may have made up.
#[unsafe(no_mangle)]
pub extern "C" fn cerandool_at(
    left: u32,
    top: u32,
    width: u32,
    height: u32,
    lanes: u32,
    lane_values: &[i16],
    x: u32,
    y: u32,
) -> Part
    ensures { as_part result ≡ read_part (record_from left top width height lanes) (length lane_values.now) x y }
{
    recordreading::part_by_record(left, top, width, height, lanes, lane_values.len(), x, y)
}

// Access of a rectangle: the indices of its access cells by row, then column, and how many there are.
#[unsafe(no_mangle)]
pub extern "C" fn cerandool_access(
    width: u32,
    height: u32,
    cells: &[u8],
    left: i32,
    top: i32,
    right: i32,
    bottom: i32,
    out: &mut [u32],
) -> CountAnswer
    ensures { AccessExported width height cells.now (corners left top right bottom) out.old out.new result }
{
    let rectangle = Corners {
        left,
        top,
        right,
        bottom,
    };
    let answer = access::call::access(width, height, cells, rectangle, out);
    countanswer::numbers(answer)
}

// Access of many rectangles: the indices of the access cells of the first, then of the next, for each how many stand before the end of its own, and how many there are.
#[unsafe(no_mangle)]
pub extern "C" fn cerandool_access_lists(
    width: u32,
    height: u32,
    cells: &[u8],
    rectangles: &[i32],
    indices: &mut [u32],
    ends: &mut [u32],
) -> CountAnswer
    ensures { AccessListsExported width height cells.now rectangles.now
        (lists.lent indices.old ends.old) (lists.lent indices.new ends.new) result }
{
    let answer = accesslists::call::access_lists(width, height, cells, rectangles, indices, ends);
    countanswer::numbers(answer)
}

// Fields of resources: the number of each resource's field, by its smallest member, and how many fields there are.
#[unsafe(no_mangle)]
pub extern "C" fn cerandool_fields(
    width: u32,
    height: u32,
    cells: &[u8],
    indices: &[u32],
    ends: &[u32],
    states: &mut [u16],
    queue: &mut [u32],
    parents: &mut [u16],
    ranks: &mut [u8],
    answers: &mut [u16],
) -> CountAnswer
    ensures { FieldsExported (fieldsinput.input_of width height cells.now indices.now ends.now)
        (fields.lent states.old queue.old parents.old ranks.old answers.old)
        (fields.lent states.new queue.new parents.new ranks.new answers.new) result }
{
    let given = FieldsInput {
        width,
        height,
        cells,
        indices,
        ends,
    };
    let answer = fields::call::fields(given, states, queue, parents, ranks, answers);
    countanswer::numbers(answer)
}

// The sheet of a room text, or the line of its refusal, at the start of a buffer: how many bytes, and 0 where the buffer is too short for it, which is then left as it is.
#[unsafe(no_mangle)]
pub extern "C" fn cerandool_sheet(text: &[u8], out: &mut [u8]) -> usize
    ensures { SheetPromise text.now out.old out.new result }
{
    sheets::sheet(text, out)
}
