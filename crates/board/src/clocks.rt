// The clock, on the state alone.
ghost use Rattle.std.specs.Prelude.{◌≡◌};
ghost use Rattle.board.specs.StateCalls.{clock_call};

use crate::{Outcome, asked, refuse};
use answers::Answer;
use state::State;

// One CPU clock.
#[tactic(auto, unfolding(crate::specs::StateCalls::state_asked, crate::specs::StateCalls::clock_call))]
pub fn clock(s: State) -> Outcome
    ensures { result ≡ clock_call s }
{
    if let Err(refusal) = asked(s) {
        return refuse(s, refusal);
    }
    let irq = scanline::clock(s.irq);
    Outcome {
        answer: Answer::Nothing,
        state: State { irq, ..s },
    }
}
