// CPU read, peek and write.
ghost use Rattle.std.specs.Prelude.{◌≡◌, true};
ghost use Rattle.memory.specs.Bytes.{mem_in, mem_of};
ghost use Rattle.state.specs.Lengths.{lengths_ok};
ghost use Rattle.cpu.specs.Reads.{cpu_answer};
ghost use Rattle.cpu.specs.Writes.{register_written};
ghost use Rattle.board.specs.Outcomes.{after_of};
ghost use Rattle.board.specs.CpuSide.{cpu_read, cpu_peek, cpu_write};

use crate::{Outcome, refuse};
use answers::{Answer, Refusal};
use memory::{CpuAddr, Lent};
use state::{Screen, State};
use steps::register_writes;

// What a read or a peek answers.
#[tactic(auto, unfolding(cpu::specs::Reads::cpu_answer))]
fn answer_at(s: State, lent: Lent<'_>, addr: CpuAddr) -> Answer
    ensures { result ≡ cpu_answer s (mem_in lent.entry) addr.0 }
{
    let pages = s.prg_pages;
    let word = cpu::writes::prg_word_at(pages, addr);
    steps::cpu_side::read(
        s.regs,
        s.vsplit,
        s.irq,
        s.prg_banks,
        s.chr_banks,
        word,
        lent,
        addr,
    )
}

// The state after a write: the registers lie from $5100 to $5206.
fn register_written(s: State, addr: CpuAddr, val: u8) -> State
    requires { lengths_ok s.lengths ≡ true }
    ensures { result ≡ register_written s addr.0 val }
{
    if !cpu::groups::is_within(0x5100, 0x5206, addr) {
        return s;
    }
    if cpu::writes::maps_prg(addr) {
        let w = register_writes::write_prg(s.lengths, s.regs, s.prg_banks, s.prg_pages, addr, val);
        let prg_banks = w.banks;
        let prg_pages = w.pages;
        return State {
            regs: w.regs,
            prg_banks,
            prg_pages,
            ..s
        };
    }
    let w = register_writes::write_other(
        s.lengths,
        s.regs,
        s.vsplit,
        s.irq,
        s.ppu,
        s.screen.mirroring,
        s.chr_banks,
        s.chr_pages,
        s.prg_pages[23],
        addr,
        val,
    );
    let chr_banks = w.banks;
    let chr_pages = w.pages;
    let mut prg_pages = s.prg_pages;
    prg_pages[23] = w.exram;
    State {
        regs: w.regs,
        vsplit: w.vsplit,
        irq: w.irq,
        ppu: w.ppu,
        screen: Screen {
            mirroring: w.mirroring,
        },
        chr_banks,
        chr_pages,
        prg_pages,
        ..s
    }
}

#[tactic(auto, unfolding(crate::specs::CpuSide::cpu_read))]
pub fn cpu_read(
    s: State,
    prg: &[u8],
    chr: &[u8],
    ram: &[u8],
    ciram: &[u8],
    exram: &[u8],
    addr: CpuAddr,
) -> Outcome
    ensures { result ≡ cpu_read s (mem_of prg.now chr.now ram.now ciram.now exram.now) addr.0 }
{
    let gate = state::gate::passed(s, prg.len(), chr.len(), ram.len(), ciram.len(), exram.len());
    if let Err(refusal) = gate {
        return refuse(s, refusal);
    }
    if cpu::reads::audio_read(addr) {
        return refuse(s, Refusal::Audio);
    }
    let lent = Lent {
        prg,
        chr,
        ram,
        ciram,
        exram,
    };
    let answer = answer_at(s, lent, addr);
    let irq = cpu::reads::irq_read(s.irq, addr);
    Outcome {
        answer,
        state: State { irq, ..s },
    }
}

#[tactic(auto, unfolding(crate::specs::CpuSide::cpu_peek))]
pub fn cpu_peek(
    s: State,
    prg: &[u8],
    chr: &[u8],
    ram: &[u8],
    ciram: &[u8],
    exram: &[u8],
    addr: CpuAddr,
) -> Answer
    ensures { result ≡ cpu_peek s (mem_of prg.now chr.now ram.now ciram.now exram.now) addr.0 }
{
    let gate = state::gate::passed(s, prg.len(), chr.len(), ram.len(), ciram.len(), exram.len());
    if let Err(refusal) = gate {
        return Answer::Refused(refusal);
    }
    if cpu::reads::audio_read(addr) {
        return Answer::Refused(Refusal::Audio);
    }
    let lent = Lent {
        prg,
        chr,
        ram,
        ciram,
        exram,
    };
    answer_at(s, lent, addr)
}

#[tactic(auto, unfolding(crate::specs::CpuSide::cpu_write))]
pub fn cpu_write(
    s: State,
    prg: &[u8],
    chr: &mut [u8],
    ram: &mut [u8],
    ciram: &mut [u8],
    exram: &mut [u8],
    addr: CpuAddr,
    val: u8,
) -> Outcome
    ensures { after_of result (mem_of prg.now chr.new ram.new ciram.new exram.new)
        ≡ cpu_write s (mem_of prg.now chr.old ram.old ciram.old exram.old) addr.0 val }
{
    let gate = state::gate::passed(s, prg.len(), chr.len(), ram.len(), ciram.len(), exram.len());
    if let Err(refusal) = gate {
        return refuse(s, refusal);
    }
    if cpu::writes::audio_write(addr) {
        return refuse(s, Refusal::Audio);
    }
    let word = cpu::writes::prg_word_at(s.prg_pages, addr);
    // First the bytes: no register maps the page that registers are written at.
    steps::cpu_side::store(
        chr,
        ram,
        ciram,
        exram,
        s.regs.exram_mode,
        s.ppu.rendering,
        word,
        addr,
        val,
    );
    Outcome {
        answer: Answer::Nothing,
        state: register_written(s, addr, val),
    }
}
