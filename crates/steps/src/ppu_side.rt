// What a PPU fetch does to the groups that it touches, and what it answers.
ghost use Rattle.std.specs.Prelude.{◌≡◌, true, ltb};
ghost use Rattle.memory.specs.Bytes.{mem_in};
ghost use Rattle.memory.specs.Tests.{pick};
ghost use Rattle.memory.specs.PageWords.{page_of};
ghost use Rattle.banks.specs.Chr.{chr_mapped};
ghost use Rattle.cpu.specs.Chosen.{set_changed};
ghost use Rattle.cpu.specs.Reads.{page_answer};
ghost use Rattle.scanline.specs.Ranges.{detector_ok};
ghost use Rattle.scanline.specs.Steps.{seen_at};
ghost use Rattle.scanline.specs.Tiles.{tiles_ok};
ghost use Rattle.ppu.specs.Fetches.{ppu_seen, split_seen};
ghost use Rattle.ppu.specs.Served.{counted_served, pattern_served};
ghost use Rattle.steps.specs.Sides.{chosen_at};

use answers::Answer;
use memory::{Lent, PageWord, PpuAddr};
use registers::Regs;
use scanline::Detector;
use split::VSplit;
use state::{Lengths, PpuStatus};

// The groups after a fetch at $2000-$3EFF.
#[derive(Clone, Copy)]
pub struct Counted {
    pub irq: Detector,
    pub ppu: PpuStatus,
    pub vsplit: VSplit,
}

#[tactic(auto, unfolding(scanline::specs::Ranges::detector_ok, scanline::specs::Tiles::tiles_ok, scanline::specs::Tiles::next_tile, ppu::specs::Fetches::ppu_seen))]
pub fn count_fetch(
    regs: Regs,
    irq: Detector,
    ppu: PpuStatus,
    vsplit: VSplit,
    addr: PpuAddr,
) -> Counted
    requires { (detector_ok irq ≡ true) × (tiles_ok ppu.tile_number ≡ true) }
    ensures { (result.irq ≡ seen_at irq addr.0) × ((result.ppu ≡ ppu_seen regs (seen_at irq addr.0).match_count ppu addr.0)
        × (result.vsplit ≡ split_seen regs vsplit (seen_at irq addr.0) (ppu_seen regs (seen_at irq addr.0).match_count ppu addr.0).tile_number addr.0)) }
{
    let seen = scanline::seen(irq, addr);
    let status = ppu::fetches::ppu_seen(regs, seen.match_count, ppu, addr);
    let split = ppu::fetches::split_seen(regs, vsplit, seen, status.tile_number, addr);
    Counted {
        irq: seen,
        ppu: status,
        vsplit: split,
    }
}

// What such a fetch answers, by the groups after it.
#[tactic(auto, using(cpu::proofs::Addresses::answer_low))]
pub fn counted_answer(
    regs: Regs,
    vsplit: VSplit,
    in_frame: bool,
    ppu: PpuStatus,
    word: PageWord,
    lent: Lent<'_>,
    addr: PpuAddr,
) -> Answer
    ensures { result ≡ counted_served regs vsplit in_frame ppu lent.entry.exram.now addr.0
        (page_answer (mem_in lent.entry) (page_of word) addr.0) }
{
    let page = cpu::reads::page_answer(lent, word, addr.0 % 1024);
    ppu::served::counted_served(regs, vsplit, in_frame, ppu, lent.exram, addr, page)
}

// The CHR set after any other fetch.
#[tactic(auto, unfolding(crate::specs::Sides::chosen_at))]
pub fn chosen_at(ppu: PpuStatus, in_frame: bool, addr: PpuAddr) -> PpuStatus
    ensures { result ≡ chosen_at ppu in_frame addr.0 }
{
    if addr.0 < 0x2000 {
        cpu::chosen::choose(ppu, in_frame)
    } else {
        ppu
    }
}

// The CHR table with the set that is wanted: "mapping only on a change".
pub fn map_on_change(
    lengths: Lengths,
    regs: Regs,
    banks: [u8; 16],
    before: bool,
    after: bool,
    pages: [PageWord; 16],
) -> [PageWord; 16]
    ensures { result ≡ pick (set_changed before after) (chr_mapped lengths.chr lengths.chr_writable regs banks after pages) pages }
{
    if cpu::chosen::set_changed(before, after) {
        banks::chr::map_chr(lengths, regs, banks, after, pages)
    } else {
        pages
    }
}

// What any other fetch answers: from $3F00 on the page.
#[tactic(auto, using(cpu::proofs::Addresses::answer_low))]
pub fn other_answer(
    regs: Regs,
    vsplit: VSplit,
    irq: Detector,
    ppu: PpuStatus,
    word: PageWord,
    lent: Lent<'_>,
    addr: PpuAddr,
) -> Answer
    ensures { result ≡ pick (ltb addr.0 0x2000)
        (pattern_served regs vsplit irq ppu lent.entry.exram.now lent.entry.chr.now addr.0
        (page_answer (mem_in lent.entry) (page_of word) addr.0))
        (page_answer (mem_in lent.entry) (page_of word) addr.0) }
{
    let page = cpu::reads::page_answer(lent, word, addr.0 % 1024);
    if addr.0 < 0x2000 {
        return ppu::served::pattern_served(
            regs, vsplit, irq, ppu, lent.exram, lent.chr, addr, page,
        );
    }
    page
}
