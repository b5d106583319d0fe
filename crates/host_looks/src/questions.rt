// Questions to the state alone, over lent words: the gate, then the words that hold the answer.
#![tactic(auto, unfolding(crate::specs::Looks::look_on, board::specs::StateCalls::mirroring_call, board::specs::StateCalls::interrupt_call))]

ghost use Rattle.std.specs.Prelude.{◌≡◌};
ghost use Rattle.state.specs.declared.State.{State};
ghost use Rattle.board.specs.StateCalls.{mirroring_call, interrupt_call};
ghost use Rattle.host_answers.specs.Answers.{answer_mirroring, answer_interrupt};
ghost use Rattle.host_looks.specs.Looks.{look_on};

use answers::Refusal;
use host_state::{gate, read};

// The mirroring, 0 to 4.
#[tactic(auto, unfolding(crate::specs::Looks::look_on, board::specs::StateCalls::mirroring_call))]
pub fn mmc5_mirroring(words: &[u16; 144]) -> u32
    ensures { result ≡ look_on words.now answer_mirroring (λ (s : State). mirroring_call s) }
{
    if !gate::in_range(words) {
        return host_answers::mirroring(Err(Refusal::State));
    }
    let mirroring = read::mirroring_of(words);
    host_answers::mirroring(Ok(mirroring))
}

// Whether the interrupt is up, 0 or 1.
#[tactic(auto, unfolding(crate::specs::Looks::look_on, board::specs::StateCalls::interrupt_call))]
pub fn mmc5_interrupt(words: &[u16; 144]) -> u32
    ensures { result ≡ look_on words.now answer_interrupt (λ (s : State). interrupt_call s) }
{
    if !gate::in_range(words) {
        return host_answers::interrupt(Err(Refusal::State));
    }
    let irq = read::detector_of(words);
    let up = scanline::interrupt_up(irq);
    host_answers::interrupt(Ok(up))
}
