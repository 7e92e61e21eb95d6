// A text for a caller's buffer: all of it, or nothing.
#![tactic(auto)]

ghost use Rattle.delivery.specs.Delivery.{Delivers};

// Writes a text to the start of a buffer; answers how many bytes that were. A buffer that is too short gets nothing, and the answer is 0.
pub fn delivered(text: &[u8], out: &mut [u8]) -> usize
    ensures { Delivers text.now out.old out.new result }
{
    if out.len() < text.len() {
        return 0;
    }
    out[..text.len()].copy_from_slice(text);
    text.len()
}
