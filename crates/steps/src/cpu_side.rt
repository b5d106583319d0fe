// What a CPU read answers, and what a CPU write stores.
ghost use Rattle.std.specs.Prelude.{◌≡◌, List, ℕ};
ghost use Rattle.memory.specs.Bytes.{mem_in, mem_of, page_stored};
ghost use Rattle.memory.specs.Tests.{pick};
ghost use Rattle.memory.specs.PageWords.{page_of};
ghost use Rattle.cpu.specs.Reads.{page_answer, register_read};
ghost use Rattle.cpu.specs.Writes.{latched};
ghost use Rattle.steps.specs.Sides.{exram_word};

use answers::Answer;
use memory::{CpuAddr, Lent, PageWord};
use registers::Regs;
use scanline::Detector;
use split::VSplit;

// What a read answers: the registers lie from $5100 to $5206, elsewhere it is the page.
#[tactic(auto, using(cpu::proofs::Addresses::answer_low, crate::proofs::Idle::read_idle))]
pub fn read(
    regs: Regs,
    vsplit: VSplit,
    irq: Detector,
    prg_banks: [u8; 5],
    chr_banks: [u8; 16],
    word: PageWord,
    lent: Lent<'_>,
    addr: CpuAddr,
) -> Answer
    ensures { result ≡ register_read regs vsplit irq prg_banks chr_banks addr.0
        (page_answer (mem_in lent.entry) (page_of word) addr.0) }
{
    let page = cpu::reads::page_answer(lent, word, addr.0 % 1024);
    if cpu::groups::is_within(0x5100, 0x5206, addr) {
        return cpu::reads::register_or(regs, vsplit, irq, prg_banks, chr_banks, addr, page);
    }
    page
}

// The buffers after a write: ExRAM's own way, then the page.
#[tactic(auto, using(memory::proofs::ByteLaws::stored_low))]
pub fn store(
    chr: &mut [u8],
    ram: &mut [u8],
    ciram: &mut [u8],
    exram: &mut [u8],
    mode: u8,
    rendering: bool,
    word: PageWord,
    addr: CpuAddr,
    val: u8,
)
    ensures { (prg : List ℕ) → mem_of prg chr.new ram.new ciram.new exram.new
        ≡ page_stored (mem_of prg chr.old ram.old ciram.old (latched mode rendering addr.0 val exram.old)) (page_of word) addr.0 val }
{
    cpu::writes::latch(exram, mode, rendering, addr, val);
    memory::bytes::store(chr, ram, ciram, exram, word, addr.0 % 1024, val);
}

// ExRAM's page in the PRG table, at $5C00, after a write; `mode` is the ExRAM mode after it.
#[tactic(auto, unfolding(crate::specs::Sides::exram_word))]
pub fn exram_word(word: PageWord, mode: u8, addr: CpuAddr) -> PageWord
    ensures { result ≡ exram_word word mode addr.0 }
{
    if addr.0 == 0x5104 {
        banks::prg::exram_page(mode)
    } else {
        word
    }
}
