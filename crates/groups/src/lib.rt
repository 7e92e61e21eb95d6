// Which resources of a room are one field: their access cells are listed, and the fields call is given the lists.
// Both calls work in arrays of zeros that have room for any room that the program takes.
#![tactic(auto)]

ghost use Rattle.std.specs.Prelude.{◌≡◌};
ghost use Rattle.walkgraph.specs.Refusals.{accepted};
ghost use Rattle.walkgraph.specs.FieldsPromise.{fields_verdict};
ghost use Rattle.fieldsinput.specs.Input.{as_input};
ghost use Rattle.groups.specs.Groups.{zero_join, Joins, GroupsFit, Grouped};

use accesslists::call as lists;
use fields::call;
use fieldsinput::FieldsInput;
use roomlimits;

// How many fields the resources form whose access cells are listed, and the field of each.
fn joined(given: FieldsInput<'_>, answers: &mut [u16]) -> usize
    requires { fields_verdict (as_input given) (zero_join answers.old) ≡ accepted }
    ensures { Joins (as_input given.entry) answers.old answers.new result }
{
    let mut states: [u16; 3600] = [0; 3600];
    let mut queue: [u32; 3600] = [0; 3600];
    let mut parents: [u16; 8] = [0; 8];
    let mut ranks: [u8; 8] = [0; 8];
    call::fields(
        given,
        &mut states,
        &mut queue,
        &mut parents,
        &mut ranks,
        answers,
    )
    .unwrap()
}

// How many fields the resources of an accepted room form, and the field of each.
pub fn groups(
    width: u32,
    height: u32,
    cells: &[u8],
    resources: &[i32],
    answers: &mut [u16],
) -> usize
    requires { GroupsFit width height cells.now resources.now answers.old }
    ensures { Grouped width height cells.now resources.now answers.old answers.new result }
{
    let mut indices = roomlimits::access_cells();
    let mut ends: [u32; 8] = [0; 8];
    let found = lists::access_lists(width, height, cells, resources, &mut indices, &mut ends);
    let count = found.unwrap();
    let given = FieldsInput {
        width,
        height,
        cells,
        indices: &indices[..count],
        ends: &ends[..resources.len() / 4],
    };
    joined(given, answers)
}
