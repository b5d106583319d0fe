// The board as the customer calls it. Every function takes anything: it asks the gate (refusals 4 and 5), then its own refusals, then does the
// call. 01, "The board we take". A call over memory takes the five lent buffers; a call that touches none takes the state alone.
#![tactic(auto)]

ghost use Rattle.std.specs.Prelude.{◌≡◌};
ghost use Rattle.board.specs.Outcomes.{refused};
ghost use Rattle.board.specs.StateCalls.{state_asked};

use answers::{Answer, Refusal};
use state::State;

pub mod clocks;
pub mod cpu_side;
pub mod loads;
pub mod ppu_registers;
pub mod state_calls;

// What a call gives back: its answer and the state after it.
#[derive(Clone, Copy)]
pub struct Outcome {
    pub answer: Answer,
    pub state: State,
}

// What a call on the state alone asks: refusal 5 where a range is broken.
#[tactic(auto, unfolding(crate::specs::StateCalls::state_asked))]
fn asked(s: State) -> Result<(), Refusal>
    ensures { result ≡ state_asked s }
{
    if !state::ranges::in_range(s) {
        return Err(Refusal::State);
    }
    Ok(())
}

// A refusal gives the state back as it was handed in.
pub fn refuse(s: State, refusal: Refusal) -> Outcome
    ensures { result ≡ refused s refusal }
{
    Outcome {
        answer: Answer::Refused(refusal),
        state: s,
    }
}
