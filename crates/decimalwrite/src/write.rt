// Writing a number into a lent buffer at a place. How long its text is can be asked first.
ghost use Rattle.std.specs.Prelude.{◌≡◌, ◌+◌, ◌≤◌, pos, length};
ghost use Rattle.decimal.specs.Numbers.{decimal_of, Writes};

// How many bytes the text of a number from 0 on has.
pub fn natural_length(number: u64) -> usize
    ensures { (result ≡ length (decimal_of (pos number))) × (result ≤ 20) }
{
    if number < 10 {
        return 1;
    }
    natural_length(number / 10) + 1
}

// Writes a number from 0 on, and hands back the place after it.
pub fn natural(out: &mut [u8], at: usize, number: u64) -> usize
    requires { at + length (decimal_of (pos number)) ≤ length out.old }
    ensures { Writes (pos number) at out.old out.new result }
{
    if number < 10 {
        out[at] = b'0' + number as u8;
        return at + 1;
    }
    let last = natural(out, at, number / 10);
    out[last] = b'0' + (number % 10) as u8;
    last + 1
}

// How many bytes the text of a number has.
pub fn integer_length(number: i32) -> usize
    ensures { (result ≡ length (decimal_of number)) × (result ≤ 21) }
{
    let digits = natural_length(u64::from(number.unsigned_abs()));
    if number < 0 {
        return digits + 1;
    }
    digits
}

// Writes a number, and hands back the place after it.
pub fn integer(out: &mut [u8], at: usize, number: i32) -> usize
    requires { at + length (decimal_of number) ≤ length out.old }
    ensures { Writes number at out.old out.new result }
{
    let digits = u64::from(number.unsigned_abs());
    if number < 0 {
        out[at] = b'-';
        return natural(out, at + 1, digits);
    }
    natural(out, at, digits)
}
