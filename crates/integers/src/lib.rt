// Decimal numbers of 32 bits in a text, below 0 with a minus. One text is accepted for each number.
#![tactic(auto)]

ghost use Rattle.std.specs.Prelude.{◌≡◌, ◌≤◌, eqb, pos, neg_ℤ, get_or};
ghost use Rattle.decimal.specs.Numbers.{Limited, Reads};
ghost use Rattle.integers.specs.Answers.{integer_found};

use decimal::read;

// A minus stands at a place of the text.
fn minus_at(text: &[u8], at: usize) -> bool
    ensures { result ≡ eqb (get_or text.now at 0) 45 }
{
    text.get(at) == Some(&b'-')
}

// The number below 0 of that size.
// Stays: asks for what fits, and `From` asks for nothing.
fn negative(size: u32) -> i32
    requires { size ≤ 2147483648 }
    ensures { result ≡ neg_ℤ (pos size) }
{
    (0 - i64::from(size)) as i32
}

// A number that was read, where it is in its limits.
fn limited(number: i32, past: usize, lowest: i32, highest: i32) -> Option<(i32, usize)>
    ensures { Limited lowest highest number past (integer_found result) }
{
    if !(lowest..=highest).contains(&number) {
        return None;
    }
    Some((number, past))
}

// Reads a number from the lowest to the highest that is accepted: the number, and the place after it.
pub fn integer(text: &[u8], at: usize, lowest: i32, highest: i32) -> Option<(i32, usize)>
    ensures { Reads lowest highest text.now at (integer_found result) }
{
    if minus_at(text, at) {
        let (below, past) = read::natural(text, at + 1, 2147483648)?;
        if below == 0 {
            return None;
        }
        return limited(negative(below), past, lowest, highest);
    }
    let (above, past) = read::natural(text, at, 2147483647)?;
    limited(above as i32, past, lowest, highest)
}
