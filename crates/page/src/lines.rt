// Numbers on a line of a sheet, and the line of a refusal.
ghost use Rattle.page.specs.Puts.{Room, Puts};
ghost use Rattle.page.specs.Lines.{two_then, refusal_line};

use crate::Page;

// Two numbers, and a byte after them.
pub fn two_then(page: &mut Page<'_>, a: u64, b: u64, last: u8)
    requires { Room (two_then a b last) page.old }
    ensures { Puts (two_then a b last) page.old page.new }
{
    page.number_then(a, b' ');
    page.number_then(b, last);
}

// A refusal's number and place.
pub fn refusal(page: &mut Page<'_>, number: u32, place: u32)
    requires { Room (refusal_line number place) page.old }
    ensures { Puts (refusal_line number place) page.old page.new }
{
    page.word(b"refused ");
    two_then(page, u64::from(number), u64::from(place), b'\n');
}
