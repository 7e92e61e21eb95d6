// Reading a number from 0 on at a place of a text, up to the first byte that is no part of it.
ghost use Rattle.std.specs.Prelude.{◌≡◌, pos, take_while, length};
ghost use Rattle.decimal.specs.Numbers.{is_digit, Reads};
ghost use Rattle.decimal.specs.Answers.{natural_found};

// How many digits stand at the start.
#[tactic(auto, unfolding(crate::specs::Numbers::is_digit))]
fn digits_count(bytes: &[u8]) -> usize
    ensures { result ≡ length (take_while is_digit bytes.now) }
{
    bytes
        .iter()
        .take_while(|byte| byte.is_ascii_digit())
        .count()
}

// Reads a number from 0 to the highest that is accepted: the number, and the place after it.
// Stays: what reads a text takes it and a place, here and above: "thin functions call covered ones on slice and number" (document 01).
pub fn natural(text: &[u8], at: usize, highest: u32) -> Option<(u32, usize)>
    ensures { Reads (pos 0) (pos highest) text.now at (natural_found result) }
{
    let rest = text.get(at..)?;
    // No u32 has more than ten digits: a longer run of them is refused by its first eleven.
    let count = digits_count(&rest[..rest.len().min(11)]);
    if count > 10 {
        return None;
    }
    let digits = &rest[..count];
    if digits.is_empty() {
        return None;
    }
    if digits.len() > 1 && digits[0] == b'0' {
        return None;
    }
    let mut number: u32 = 0;
    for digit in digits {
        number = number
            .checked_mul(10)?
            .checked_add(u32::from(*digit - b'0'))?;
    }
    if highest < number {
        return None;
    }
    Some((number, at + digits.len()))
}
