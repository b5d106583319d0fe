// The log of a replay: what is written of one record.
#![tactic(auto)]

ghost use Rattle.std.specs.Prelude.{◌≤◌, ◌≡◌};
ghost use Rattle.scanline.specs.Steps.{interrupt_up};
ghost use Rattle.logs.specs.Logs.{log_letter, logged};

use answers::Answer;
use scanline::Detector;

fn log_letter(answer: Answer, up: bool) -> u8
    ensures { result ≡ log_letter answer up }
{
    let letter = answers::letter_of(answer);
    if up { letter + 128 } else { letter }
}

// The two bytes of record n, by its answer and the detector after it.
#[tactic(auto, unfolding(crate::specs::Logs::logged))]
pub fn log_record(log: &mut [u8], n: usize, answer: Answer, irq: Detector)
    requires { n ≤ 8192 }
    ensures { log.new ≡ logged log.old n answer (interrupt_up irq) }
{
    let up = scanline::interrupt_up(irq);
    let letter = log_letter(answer, up);
    let value = answers::value_of(answer);
    memory::bytes::put(log, 2 * n, letter);
    memory::bytes::put(log, 2 * n + 1, value);
}
