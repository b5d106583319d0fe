// The PPU register write: the PPU status and the detector are read and put back.
ghost use Rattle.std.specs.Prelude.{◌≡◌};
ghost use Rattle.state.specs.declared.State.{State};
ghost use Rattle.board.specs.StateCalls.{ppu_register_call};
ghost use Rattle.host.specs.Hosted.{left_words, on_words};

use answers::{Answer, Refusal};
use host_state::{gate, groups, read};
use memory::CpuAddr;

// A PPU register write.
#[tactic(auto, unfolding(crate::specs::Hosted::on_words, board::specs::StateCalls::ppu_register_call))]
pub fn mmc5_ppu_register(words: &mut [u16; 144], addr: u16, val: u8) -> u32
    ensures { left_words result words.new ≡ on_words words.old (λ (s : State). ppu_register_call s addr val) }
{
    if !gate::in_range(words) {
        return host_answers::plain(Answer::Refused(Refusal::State));
    }
    let at = CpuAddr(addr);
    let before = read::detector_of(words);
    let irq = cpu::ppu_registers::detector_after(before, at, val);
    let status = read::status_of(words);
    let ppu = cpu::ppu_registers::status_after(status, at, val);
    groups::put_status(ppu, words);
    groups::put_detector(irq, words);
    host_answers::with_interrupt(Answer::Nothing, irq)
}
