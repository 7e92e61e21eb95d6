// A count on a line of its own.
ghost use Rattle.std.specs.Prelude.{◌≤◌};
ghost use Rattle.roomlines.specs.Forms.{ReadsCount};
ghost use Rattle.roomlines.specs.Answers.{count_found};

use followednumbers;

// Reads a count from the lowest to the highest that is accepted: the count, and the place after its line.
#[tactic(auto, unfolding(decimal::specs::Numbers::is_digit))]
pub fn count(text: &[u8], at: usize, lowest: u32, highest: u32) -> Option<(usize, usize)>
    requires { (lowest ≤ 2147483647) × (highest ≤ 2147483647) }
    ensures { ReadsCount lowest highest text.now at (count_found result) }
{
    let (number, past) = followednumbers::followed(text, at, b'\n', lowest as i32, highest as i32)?;
    Some((number as usize, past))
}
