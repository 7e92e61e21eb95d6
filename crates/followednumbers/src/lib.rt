// A number in a text and the one byte that must follow it, a space or LF.
#![tactic(auto)]

ghost use Rattle.std.specs.Prelude.{◌≡◌, false};
ghost use Rattle.decimal.specs.Numbers.{is_digit, ReadsFollowed};
ghost use Rattle.integers.specs.Answers.{integer_found};

use integers;

// Reads a number and the one byte that must follow it, a space or LF: the place handed back is past that byte.
pub fn followed(text: &[u8], at: usize, byte: u8, lowest: i32, highest: i32) -> Option<(i32, usize)>
    requires { is_digit byte ≡ false }
    ensures { ReadsFollowed byte lowest highest text.now at (integer_found result) }
{
    let (number, past) = integers::integer(text, at, lowest, highest)?;
    if text.get(past) != Some(&byte) {
        return None;
    }
    Some((number, past + 1))
}
