// The clock: only the detector is read and put back.
ghost use Rattle.std.specs.Prelude.{◌≡◌};
ghost use Rattle.state.specs.declared.State.{State};
ghost use Rattle.board.specs.StateCalls.{clock_call};
ghost use Rattle.host.specs.Hosted.{left_words, on_words};

use answers::{Answer, Refusal};
use host_state::{gate, groups, read};

// One CPU clock.
#[tactic(auto, unfolding(crate::specs::Hosted::on_words, board::specs::StateCalls::clock_call))]
pub fn mmc5_clock(words: &mut [u16; 144]) -> u32
    ensures { left_words result words.new ≡ on_words words.old (λ (s : State). clock_call s) }
{
    if !gate::in_range(words) {
        return host_answers::plain(Answer::Refused(Refusal::State));
    }
    let before = read::detector_of(words);
    let after = scanline::clock(before);
    groups::put_detector(after, words);
    host_answers::with_interrupt(Answer::Nothing, after)
}
