// Buffers that end as 0.
#![tactic(auto)]

ghost use Rattle.zeros.specs.Zeros.{Cleared};

// "The first four end as 0 in their used parts."
pub fn clear(states: &mut [u16], queue: &mut [u32], parents: &mut [u16], ranks: &mut [u8])
    ensures { Cleared states.new queue.new parents.new ranks.new }
{
    states.fill(0);
    queue.fill(0);
    parents.fill(0);
    ranks.fill(0);
}
