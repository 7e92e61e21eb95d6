// Text on a page, which is a lent buffer of bytes and the place up to which it is written: bytes, words and numbers, and the line of a refusal.
#![tactic(auto)]

pub mod lines;

use decimalwrite::write;

// A lent buffer, and the place up to which it is written.
#[derive(Drop)]
pub struct Page<'a> {
    pub bytes: &'a mut [u8],
    pub at: usize,
}

impl<'a> Page<'a> {
    ghost use Rattle.std.specs.Prelude.{[], ◌∷◌, pos};
    ghost use Rattle.decimal.specs.Numbers.{decimal_of};
    ghost use Rattle.page.specs.Puts.{Puts, Room};
    ghost use Rattle.page.specs.Lines.{number_then};

    // Puts one byte.
    pub fn byte(&mut self, byte: u8)
        requires { Room (byte ∷ []) self.old }
        ensures { Puts (byte ∷ []) self.old self.new }
    {
        self.bytes[self.at] = byte;
        self.at += 1;
    }

    // Puts a word.
    pub fn word(&mut self, word: &[u8])
        requires { Room word.now self.old }
        ensures { Puts word.now self.old self.new }
    {
        let end = self.at + word.len();
        self.bytes[self.at..end].copy_from_slice(word);
        self.at = end;
    }

    // Puts a number.
    pub fn number(&mut self, number: u64)
        requires { Room (decimal_of (pos number)) self.old }
        ensures { Puts (decimal_of (pos number)) self.old self.new }
    {
        self.at = write::natural(self.bytes, self.at, number);
    }

    // Puts a number and a byte after it.
    pub fn number_then(&mut self, number: u64, last: u8)
        requires { Room (number_then number last) self.old }
        ensures { Puts (number_then number last) self.old self.new }
    {
        self.number(number);
        self.byte(last);
    }
}
