// What a call that counts answers, access of a rectangle, of many, and the fields call, in numbers alone, as the static library gives it back.
#![tactic(auto)]

ghost use Rattle.std.specs.Prelude.{◌≡◌};
ghost use Rattle.countanswer.specs.Answers.{listed_of, joined_of};
ghost use Rattle.countanswer.specs.Numbers.{listed_numbers, joined_numbers, InU32};

use refusal::Refusal;

// What a call leads to that counts. Where it is accepted, number and place are 0, and how many there are follows.
// Where it is refused, number and place are the table's, and the count is 0.
#[repr(C)]
#[derive(Clone, Copy)]
pub struct CountAnswer {
    pub number: u32,
    pub place: u32,
    pub count: u32,
}

// The three numbers of an answer.
// Stays: asks for what fits, and `From` asks for nothing.
#[tactic(auto, unfolding(crate::specs::Answers::listed_of, crate::specs::Answers::joined_of, crate::specs::Numbers::listed_numbers, crate::specs::Numbers::joined_numbers))]
pub fn numbers(answer: Result<usize, Refusal>) -> CountAnswer
    requires { InU32 answer }
    ensures { (result ≡ listed_numbers (listed_of answer)) × (result ≡ joined_numbers (joined_of answer)) }
{
    match answer {
        Err(refusal) => CountAnswer {
            number: refusal.number(),
            place: refusal.place(),
            count: 0,
        },
        Ok(count) => CountAnswer {
            number: 0,
            place: 0,
            count: count as u32,
        },
    }
}
