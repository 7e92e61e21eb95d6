// Lines of a text, each ended by LF.
#![tactic(auto)]

pub mod broken;

ghost use Rattle.std.specs.Prelude.{◌≡◌, ◌==◌, length, ltb, position};
ghost use Rattle.textlines.specs.Lines.{FindsLine};
ghost use Rattle.textlines.specs.Answers.{line_found};

// Where the first LF stands.
fn line_feed(bytes: &[u8]) -> Option<usize>
    ensures { result ≡ position (λ byte. byte == 10) bytes.now }
{
    bytes.iter().position(|byte| *byte == b'\n')
}

// Where the line that starts at a place ends, or that no LF ends it.
pub fn line_end(text: &[u8], at: usize) -> Option<usize>
    ensures { FindsLine text.now at (line_found result) }
{
    let size = line_feed(text.get(at..)?)?;
    Some(at + size)
}

// Whether a text goes on at a place.
pub fn goes_on(text: &[u8], at: usize) -> bool
    ensures { result ≡ ltb at (length text.now) }
{
    at < text.len()
}
