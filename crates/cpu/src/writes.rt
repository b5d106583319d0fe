// A CPU write: which registers map which pages, the CHR table after it, and ExRAM's own way.
ghost use Rattle.std.specs.Prelude.{◌≡◌};
ghost use Rattle.cpu.specs.Writes.{maps_prg, maps_chr, chr_pages_after, latched, prg_word_at, audio_write};

use crate::groups;
use memory::{CpuAddr, PageWord};
use registers::Regs;
use state::Lengths;

// PRG mode, protection and PRG banks.
pub fn maps_prg(addr: CpuAddr) -> bool
    ensures { result ≡ maps_prg addr.0 }
{
    matches!(addr.0, 0x5100 | 0x5102..=0x5103 | 0x5113..=0x5117)
}

// CHR mode, CHR banks and the upper CHR bits.
pub fn maps_chr(addr: CpuAddr) -> bool
    ensures { result ≡ maps_chr addr.0 }
{
    matches!(addr.0, 0x5101 | 0x5120..=0x512B | 0x5130)
}

#[tactic(auto, unfolding(crate::specs::Writes::chr_pages_after))]
pub fn chr_pages_after(
    z: Lengths,
    regs: Regs,
    banks: [u8; 16],
    bg_set: bool,
    pages: [PageWord; 16],
    addr: CpuAddr,
) -> [PageWord; 16]
    ensures { result ≡ chr_pages_after z regs banks bg_set pages addr.0 }
{
    if maps_chr(addr) {
        banks::chr::map_chr(z, regs, banks, bg_set, pages)
    } else if groups::is_within(0x5104, 0x5105, addr) {
        banks::names::map_names(regs.nametables, registers::nametable_use(regs), pages)
    } else {
        pages
    }
}

// ExRAM from the CPU in modes 0 and 1, where no page shows it.
#[tactic(auto, unfolding(crate::specs::Writes::latched))]
pub fn latch(exram: &mut [u8], mode: u8, rendering: bool, addr: CpuAddr, val: u8)
    ensures { exram.new ≡ latched mode rendering addr.0 val exram.old }
{
    if groups::is_within(0x5C00, 0x5FFF, addr) & (mode <= 1) {
        let at = (addr.0 - 0x5C00) as usize;
        memory::bytes::put(exram, at, if rendering { val } else { 0 });
    }
}

// The page word at a CPU address.
pub fn prg_word_at(pages: [PageWord; 64], addr: CpuAddr) -> PageWord
    ensures { result ≡ prg_word_at pages addr.0 }
{
    pages[(addr.0 / 1024) as usize]
}

// Refusal 6, of a write.
pub fn audio_write(addr: CpuAddr) -> bool
    ensures { result ≡ audio_write addr.0 }
{
    matches!(
        addr.0,
        0x5000 | 0x5002..=0x5004 | 0x5006..=0x5007 | 0x5010..=0x5011 | 0x5015
    )
}
