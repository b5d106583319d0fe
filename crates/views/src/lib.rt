// Page views: the 1,024 bytes that a page shows, as a part of the lent buffer itself. 01, "Views". Every other page, and whatever the gate
// refuses, gives the empty part.
#![tactic(auto)]

ghost use Rattle.std.specs.Prelude.{◌≡◌};
ghost use Rattle.memory.specs.Bytes.{mem_of};
ghost use Rattle.views.specs.Views.{part_from, cpu_view, ppu_view};

use memory::{CpuAddr, PpuAddr, Src};
use state::State;

// A page's bytes, where the buffer has them all.
#[tactic(auto, unfolding(crate::specs::Views::part_from))]
fn part_from(buffer: &[u8], from: usize) -> &[u8]
    ensures { result.now ≡ part_from buffer.now from }
{
    match buffer.get(from..) {
        Some(rest) if 1024 <= rest.len() => &rest[..1024],
        _ => &buffer[..0],
    }
}

// What the page at a CPU address shows of PRG-ROM or of PRG-RAM: one lifetime over the two, the part of whichever the page word names.
#[tactic(auto, unfolding(crate::specs::Views::cpu_view))]
pub fn cpu_view<'a>(
    s: State,
    prg: &'a [u8],
    chr: &[u8],
    ram: &'a [u8],
    ciram: &[u8],
    exram: &[u8],
    addr: CpuAddr,
) -> &'a [u8]
    ensures { result.now ≡ cpu_view s (mem_of prg.now chr.now ram.now ciram.now exram.now) addr.0 }
{
    let gate = state::gate::passed(s, prg.len(), chr.len(), ram.len(), ciram.len(), exram.len());
    if gate.is_err() {
        return &prg[..0];
    }
    let word = cpu::writes::prg_word_at(s.prg_pages, addr);
    let page = memory::page_words::page_of(word);
    let from = page.index as usize * 1024;
    match page.src {
        Src::PrgRom => part_from(prg, from),
        Src::PrgRam => part_from(ram, from),
        _ => &prg[..0],
    }
}

// What the page at a PPU address shows of CHR.
#[tactic(auto, unfolding(crate::specs::Views::ppu_view))]
pub fn ppu_view<'a>(
    s: State,
    prg: &[u8],
    chr: &'a [u8],
    ram: &[u8],
    ciram: &[u8],
    exram: &[u8],
    addr: PpuAddr,
) -> &'a [u8]
    ensures { result.now ≡ ppu_view s (mem_of prg.now chr.now ram.now ciram.now exram.now) addr.0 }
{
    let gate = state::gate::passed(s, prg.len(), chr.len(), ram.len(), ciram.len(), exram.len());
    if gate.is_err() {
        return &chr[..0];
    }
    let word = board_ppu::pages::chr_word_at(s.chr_pages, addr);
    let page = memory::page_words::page_of(word);
    match page.src {
        Src::Chr => part_from(chr, page.index as usize * 1024),
        _ => &chr[..0],
    }
}
