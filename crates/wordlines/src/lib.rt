// Lines of a sheet that begin with a word: a word and a number, and the window's.
#![tactic(auto)]

ghost use Rattle.page.specs.Puts.{Puts, Room};
ghost use Rattle.page.specs.Lines.{word_line, window_line};

use page::{Page, lines};

// A word, which ends in a space, and a number.
pub fn word_line(page: &mut Page<'_>, word: &[u8], number: u64)
    requires { Room (word_line word.now number) page.old }
    ensures { Puts (word_line word.now number) page.old page.new }
{
    page.word(word);
    page.number_then(number, b'\n');
}

// The window's line.
pub fn window_line(page: &mut Page<'_>, left: u64, top: u64, width: u64, height: u64)
    requires { Room (window_line left top width height) page.old }
    ensures { Puts (window_line left top width height) page.old page.new }
{
    page.word(b"window ");
    lines::two_then(page, left, top, b' ');
    lines::two_then(page, width, height, b'\n');
}
