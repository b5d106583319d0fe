// PPU register writes, on the state alone.
ghost use Rattle.std.specs.Prelude.{◌≡◌};
ghost use Rattle.board.specs.StateCalls.{ppu_register_call};

use crate::{Outcome, asked, refuse};
use answers::Answer;
use memory::CpuAddr;
use state::State;

// A PPU register write.
#[tactic(auto, unfolding(crate::specs::StateCalls::state_asked, crate::specs::StateCalls::ppu_register_call))]
pub fn ppu_register(s: State, addr: CpuAddr, val: u8) -> Outcome
    ensures { result ≡ ppu_register_call s addr.0 val }
{
    if let Err(refusal) = asked(s) {
        return refuse(s, refusal);
    }
    let ppu = cpu::ppu_registers::status_after(s.ppu, addr, val);
    let irq = cpu::ppu_registers::detector_after(s.irq, addr, val);
    Outcome {
        answer: Answer::Nothing,
        state: State { ppu, irq, ..s },
    }
}
