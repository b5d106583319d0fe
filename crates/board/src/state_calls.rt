// Calls on the state alone: reset, mirroring, and whether the interrupt is up.
ghost use Rattle.std.specs.Prelude.{◌≡◌};
ghost use Rattle.board.specs.StateCalls.{reset_call, mirroring_call, interrupt_call};

use crate::{Outcome, asked, refuse};
use answers::{Answer, Refusal};
use registers::Mirroring;
use state::State;

// Modes 8k and 1k; nothing is mapped.
#[tactic(auto, unfolding(crate::specs::StateCalls::state_asked, crate::specs::StateCalls::reset_call))]
pub fn reset(s: State) -> Outcome
    ensures { result ≡ reset_call s }
{
    if let Err(refusal) = asked(s) {
        return refuse(s, refusal);
    }
    let regs = registers::reset(s.regs);
    Outcome {
        answer: Answer::Nothing,
        state: State { regs, ..s },
    }
}

#[tactic(auto, unfolding(crate::specs::StateCalls::state_asked, crate::specs::StateCalls::mirroring_call))]
pub fn mirroring(s: State) -> Result<Mirroring, Refusal>
    ensures { result ≡ mirroring_call s }
{
    asked(s)?;
    Ok(s.screen.mirroring)
}

#[tactic(auto, unfolding(crate::specs::StateCalls::state_asked, crate::specs::StateCalls::interrupt_call))]
pub fn interrupt_up(s: State) -> Result<bool, Refusal>
    ensures { result ≡ interrupt_call s }
{
    asked(s)?;
    Ok(scanline::interrupt_up(s.irq))
}
