// The CPU read: only the detector is put back.
ghost use Rattle.std.specs.Prelude.{◌≡◌};
ghost use Rattle.memory.specs.Bytes.{mem_of};
ghost use Rattle.state.specs.declared.State.{State};
ghost use Rattle.board.specs.CpuSide.{cpu_read};
ghost use Rattle.host.specs.Hosted.{left_words, on_words};

use answers::{Answer, Refusal};
use host_state::{gate, groups, read, tables};
use memory::{CpuAddr, Lent};

// A CPU read.
pub fn mmc5_cpu_read(
    words: &mut [u16; 144],
    prg: &[u8],
    chr: &[u8],
    ram: &[u8],
    ciram: &[u8],
    exram: &[u8],
    addr: u16,
) -> u32
    ensures { left_words result words.new ≡ on_words words.old (λ (s : State). cpu_read s (mem_of prg.now chr.now ram.now ciram.now exram.now) addr) }
{
    let gate = gate::passed(
        words,
        prg.len(),
        chr.len(),
        ram.len(),
        ciram.len(),
        exram.len(),
    );
    if let Err(refusal) = gate {
        return host_answers::plain(Answer::Refused(refusal));
    }
    let at = CpuAddr(addr);
    if cpu::reads::audio_read(at) {
        return host_answers::plain(Answer::Refused(Refusal::Audio));
    }
    let irq = read::detector_of(words);
    let word = tables::prg_word(words, at);
    let regs = read::regs_of(words);
    let vsplit = read::split_of(words);
    let prg_banks = read::prg_banks_of(words);
    let chr_banks = read::chr_banks_of(words);
    let lent = Lent {
        prg,
        chr,
        ram,
        ciram,
        exram,
    };
    let answer = steps::cpu_side::read(regs, vsplit, irq, prg_banks, chr_banks, word, lent, at);
    let after = cpu::reads::irq_read(irq, at);
    groups::put_detector(after, words);
    host_answers::with_interrupt(answer, after)
}
