// The answer of a field call in numbers alone, as the static library gives it back.
#![tactic(auto)]

ghost use Rattle.std.specs.Prelude.{◌≡◌};
ghost use Rattle.fieldanswer.specs.Answers.{answer_of};
ghost use Rattle.answernumbers.specs.Numbers.{numbers_of, InU32};

use fieldanswer::Made;
use refusal::Refusal;

// What a field call leads to. Where it is accepted, number and place are 0, and the window with its lanes and the
// sweep count follow. Where it is refused, number and place are the table's, and the rest is 0.
#[repr(C)]
#[derive(Clone, Copy)]
pub struct FieldAnswer {
    pub number: u32,
    pub place: u32,
    pub left: u32,
    pub top: u32,
    pub width: u32,
    pub height: u32,
    pub lanes: u32,
    pub sweeps: u32,
}

// The eight numbers of a field call's answer.
// Stays: asks for what fits, and `From` asks for nothing.
#[tactic(auto, unfolding(crate::specs::Numbers::numbers_of, crate::specs::Numbers::InU32, fieldanswer::specs::Answers::answer_of))]
pub fn field_numbers(answer: Result<Made, Refusal>) -> FieldAnswer
    requires { InU32 (answer_of answer) }
    ensures { result ≡ numbers_of (answer_of answer) }
{
    match answer {
        Err(refusal) => FieldAnswer {
            number: refusal.number(),
            place: refusal.place(),
            left: 0,
            top: 0,
            width: 0,
            height: 0,
            lanes: 0,
            sweeps: 0,
        },
        Ok(Made { window, sweeps }) => FieldAnswer {
            number: 0,
            place: 0,
            left: window.left as u32,
            top: window.top as u32,
            width: window.width as u32,
            height: window.height as u32,
            lanes: window.lanes as u32,
            sweeps: sweeps as u32,
        },
    }
}
