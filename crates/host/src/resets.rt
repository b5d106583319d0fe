// Reset: only the registers are read and put back.
ghost use Rattle.std.specs.Prelude.{◌≡◌};
ghost use Rattle.state.specs.declared.State.{State};
ghost use Rattle.board.specs.StateCalls.{reset_call};
ghost use Rattle.host.specs.Hosted.{left_words, on_words};

use answers::{Answer, Refusal};
use host_state::{gate, groups, read};

// Modes 8k and 1k.
#[tactic(auto, unfolding(crate::specs::Hosted::on_words, board::specs::StateCalls::reset_call))]
pub fn mmc5_reset(words: &mut [u16; 144]) -> u32
    ensures { left_words result words.new ≡ on_words words.old (λ (s : State). reset_call s) }
{
    if !gate::in_range(words) {
        return host_answers::plain(Answer::Refused(Refusal::State));
    }
    let irq = read::detector_of(words);
    let before = read::regs_of(words);
    let after = registers::reset(before);
    groups::put_regs(after, words);
    host_answers::with_interrupt(Answer::Nothing, irq)
}
