// The one number that a host gets for an answer: what the crates of the single calls and of the looks share.
#![tactic(auto)]

ghost use Rattle.std.specs.Prelude.{◌≡◌};
ghost use Rattle.host_answers.specs.Answers.{answer_plain, taken, answer_with_interrupt, answer_mirroring, answer_interrupt};

use answers::{Answer, Refusal};
use registers::Mirroring;
use scanline::Detector;

// The letter's code times 256, and the value.
pub fn plain(answer: Answer) -> u32
    ensures { result ≡ answer_plain answer }
{
    let letter = answers::letter_of(answer);
    let value = answers::value_of(answer);
    letter as u32 * 256 + value as u32
}

// The call was taken.
fn is_taken(answer: Answer) -> bool
    ensures { result ≡ taken answer }
{
    !matches!(answer, Answer::Refused(_))
}

// With 32,768 more where the interrupt is up after the call.
pub fn with_interrupt(answer: Answer, irq: Detector) -> u32
    ensures { result ≡ answer_with_interrupt answer irq }
{
    let number = plain(answer);
    if is_taken(answer) & scanline::interrupt_up(irq) {
        number + 32768
    } else {
        number
    }
}

pub fn mirroring(answer: Result<Mirroring, Refusal>) -> u32
    ensures { result ≡ answer_mirroring answer }
{
    match answer {
        Ok(m) => host_state::groups::number_of_mirroring(m) as u32,
        Err(r) => plain(Answer::Refused(r)),
    }
}

pub fn interrupt(answer: Result<bool, Refusal>) -> u32
    ensures { result ≡ answer_interrupt answer }
{
    match answer {
        Ok(up) => up as u32,
        Err(r) => plain(Answer::Refused(r)),
    }
}
