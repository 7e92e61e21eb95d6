// The lines of a room text by a reader over it, which remembers how far it has come. Each function is thin, without a branch or a loop.
#![tactic(auto)]

ghost use Rattle.std.specs.Prelude.{◌≡◌, ◌≤◌};
ghost use Rattle.roomlines.specs.Forms.{ReadsCount};
ghost use Rattle.roomlines.specs.Fours.{ReadsFour};
ghost use Rattle.roomlines.specs.Answers.{count_found, four_found};

use roomlines::{counts, fours};

// The text, and the place up to which it was read.
#[derive(Clone, Copy)]
pub struct Reader<'a> {
    pub text: &'a [u8],
    pub at: usize,
}

impl<'a> Reader<'a> {
    // A reader at the start of a text.
    pub fn new(text: &'a [u8]) -> Reader<'a>
        ensures { (result.text ≡ text.entry) × (result.at ≡ 0) }
    {
        Reader { text, at: 0 }
    }

    // The reader, gone on to a place.
    pub fn moved(self, at: usize) -> Reader<'a>
        ensures { (result.text ≡ self.entry.text) × (result.at ≡ at) }
    {
        Reader { at, ..self }
    }

    // The count on the line at the reader's place, and the place after the line.
    pub fn count(self, lowest: u32, highest: u32) -> Option<(usize, usize)>
        requires { (lowest ≤ 2147483647) × (highest ≤ 2147483647) }
        ensures { ReadsCount lowest highest self.entry.text.now self.entry.at (count_found result) }
    {
        counts::count(self.text, self.at, lowest, highest)
    }

    // The four numbers on the line at the reader's place, and the place after the line.
    pub fn four(self) -> Option<([i32; 4], usize)>
        ensures { ReadsFour self.entry.text.now self.entry.at (four_found result) }
    {
        fours::four(self.text, self.at)
    }
}

// The count on the line at a place of a text, and the place after the line.
pub fn count_at(text: &[u8], at: usize, lowest: u32, highest: u32) -> Option<(usize, usize)>
    requires { (lowest ≤ 2147483647) × (highest ≤ 2147483647) }
    ensures { ReadsCount lowest highest text.now at (count_found result) }
{
    Reader::new(text).moved(at).count(lowest, highest)
}

// The four numbers on the line at a place of a text, and the place after the line.
pub fn four_at(text: &[u8], at: usize) -> Option<([i32; 4], usize)>
    ensures { ReadsFour text.now at (four_found result) }
{
    Reader::new(text).moved(at).four()
}
