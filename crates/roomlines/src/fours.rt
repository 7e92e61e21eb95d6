// A line of four numbers.
ghost use Rattle.roomlines.specs.Fours.{ReadsFour};
ghost use Rattle.roomlines.specs.Answers.{four_found};

use followednumbers;

// Reads a line of four numbers with single spaces: the numbers in their order, and the place after their line.
#[tactic(auto, unfolding(decimal::specs::Numbers::is_digit))]
pub fn four(text: &[u8], at: usize) -> Option<([i32; 4], usize)>
    ensures { ReadsFour text.now at (four_found result) }
{
    let (left, to_top) = followednumbers::followed(text, at, b' ', i32::MIN, i32::MAX)?;
    let (top, to_right) = followednumbers::followed(text, to_top, b' ', i32::MIN, i32::MAX)?;
    let (right, to_bottom) = followednumbers::followed(text, to_right, b' ', i32::MIN, i32::MAX)?;
    let (bottom, past) = followednumbers::followed(text, to_bottom, b'\n', i32::MIN, i32::MAX)?;
    Some(([left, top, right, bottom], past))
}
