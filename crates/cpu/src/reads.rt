// A CPU read or peek: a register, or else the page.
ghost use Rattle.std.specs.Prelude.{◌≡◌, ◌*◌};
ghost use Rattle.memory.specs.Bytes.{mem_in};
ghost use Rattle.memory.specs.PageWords.{page_of};
ghost use Rattle.cpu.specs.Reads.{answered_as, page_answer, register_read, irq_read, audio_read};

use answers::Answer;
use memory::{CpuAddr, Lent, PageWord, Src};
use registers::Regs;
use scanline::Detector;
use split::VSplit;

// A byte of a source, as it is answered.
fn answered_as(src: Src, val: u8) -> Answer
    ensures { result ≡ answered_as src val }
{
    if src == Src::Blank {
        Answer::Blank
    } else {
        Answer::Page(val)
    }
}

// What a page word answers at an offset within its page.
#[tactic(auto, unfolding(crate::specs::Reads::page_answer))]
pub fn page_answer(lent: Lent<'_>, word: PageWord, offset: u16) -> Answer
    ensures { result ≡ page_answer (mem_in lent.entry) (page_of word) offset }
{
    let place = memory::page_words::place_of(word, offset);
    let val = lent.peek(place);
    let src = place.src;
    answered_as(src, val)
}

// The multiplier's result: $5205 has the low byte, $5206 the high one.
fn product(a: u8, b: u8) -> u16
    ensures { result ≡ a * b }
{
    a as u16 * b as u16
}

// A register's value, or else what the page answers.
#[tactic(auto, unfolding(crate::specs::Reads::register_read, crate::specs::Reads::register_at))]
pub fn register_or(
    regs: Regs,
    vsplit: VSplit,
    irq: Detector,
    prg_banks: [u8; 5],
    chr_banks: [u8; 16],
    addr: CpuAddr,
    page: Answer,
) -> Answer
    ensures { result ≡ register_read regs vsplit irq prg_banks chr_banks addr.0 page }
{
    match addr.0 {
        0x5100 => Answer::Register(regs.prg_mode),
        0x5101 => Answer::Register(regs.chr_mode),
        0x5104 => Answer::Register(regs.exram_mode),
        0x5105 => Answer::Register(regs.nametables),
        0x5106 => Answer::Register(regs.fill_tile),
        0x5107 => Answer::Register(regs.fill_attr),
        0x5113..=0x5117 => Answer::Register(prg_banks[(addr.0 - 0x5113) as usize]),
        0x5120..=0x512B => Answer::Register(chr_banks[(addr.0 - 0x5120) as usize]),
        0x5130 => Answer::Register(0),
        0x5200 => Answer::Register(vsplit.mode),
        0x5201 => Answer::Register(vsplit.scroll),
        0x5202 => Answer::Register(vsplit.bank),
        0x5203 => Answer::Register(irq.irq_scanline),
        0x5204 => Answer::Register(scanline::status(irq)),
        0x5205 => Answer::Register((product(regs.multiplicand, regs.multiplier) % 256) as u8),
        0x5206 => Answer::Register((product(regs.multiplicand, regs.multiplier) / 256) as u8),
        _ => page,
    }
}

// What a read, and no peek, leaves in the detector.
#[tactic(auto, unfolding(crate::specs::Reads::irq_read))]
pub fn irq_read(irq: Detector, addr: CpuAddr) -> Detector
    ensures { result ≡ irq_read irq addr.0 }
{
    match addr.0 {
        0x5204 => scanline::status_read(irq),
        0xFFFA | 0xFFFB => scanline::vector_read(irq),
        _ => irq,
    }
}

// Refusal 6, of a read or a peek.
pub fn audio_read(addr: CpuAddr) -> bool
    ensures { result ≡ audio_read addr.0 }
{
    matches!(addr.0, 0x5010 | 0x5015)
}
