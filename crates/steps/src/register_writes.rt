// What a CPU write to a register leaves in the groups that it touches: a write that maps PRG pages, and any other.
ghost use Rattle.std.specs.Prelude.{◌≡◌, true};
ghost use Rattle.state.specs.Lengths.{lengths_ok};
ghost use Rattle.steps.specs.Writes.{prg_write, other_write};

use crate::cpu_side;
use memory::{CpuAddr, PageWord};
use registers::{Mirroring, Regs};
use scanline::Detector;
use split::VSplit;
use state::{Lengths, PpuStatus};

// The groups after a write that maps PRG pages.
#[derive(Clone, Copy)]
pub struct PrgWrite {
    pub regs: Regs,
    pub banks: [u8; 5],
    pub pages: [PageWord; 64],
}

// Lengths that load takes are asked for here, and in board, by a test: the type also holds those of a state that is refused.
#[tactic(auto, unfolding(state::specs::Lengths::lengths_ok))]
pub fn write_prg(
    lengths: Lengths,
    regs: Regs,
    banks: [u8; 5],
    pages: [PageWord; 64],
    addr: CpuAddr,
    val: u8,
) -> PrgWrite
    requires { lengths_ok lengths ≡ true }
    ensures { result ≡ prg_write lengths regs banks pages addr.0 val }
{
    let written = registers::write(regs, addr, val);
    let next = cpu::groups::prg_banks_after(banks, addr, val);
    let mapped = banks::prg::map_prg(lengths, written, next, pages);
    PrgWrite {
        regs: written,
        banks: next,
        pages: mapped,
    }
}

// The groups after any other write. Of the PRG table it can change ExRAM's page.
#[derive(Clone, Copy)]
pub struct OtherWrite {
    pub regs: Regs,
    pub vsplit: VSplit,
    pub irq: Detector,
    pub ppu: PpuStatus,
    pub mirroring: Mirroring,
    pub banks: [u8; 16],
    pub pages: [PageWord; 16],
    pub exram: PageWord,
}

pub fn write_other(
    lengths: Lengths,
    regs: Regs,
    vsplit: VSplit,
    irq: Detector,
    ppu: PpuStatus,
    mirroring: Mirroring,
    banks: [u8; 16],
    pages: [PageWord; 16],
    exram: PageWord,
    addr: CpuAddr,
    val: u8,
) -> OtherWrite
    ensures { result ≡ other_write lengths regs vsplit irq ppu mirroring banks pages exram addr.0 val }
{
    let written = registers::write(regs, addr, val);
    let split = cpu::groups::split_after(vsplit, addr, val);
    let detector = cpu::groups::irq_after(irq, addr, val);
    let status = cpu::chosen::ppu_after(ppu, irq.in_frame, addr);
    let mirrored = registers::mirroring_after(mirroring, addr, val);
    let next = cpu::groups::chr_banks_after(banks, addr, val);
    let mapped = cpu::writes::chr_pages_after(lengths, written, next, status.bg_set, pages, addr);
    let word = cpu_side::exram_word(exram, written.exram_mode, addr);
    OtherWrite {
        regs: written,
        vsplit: split,
        irq: detector,
        ppu: status,
        mirroring: mirrored,
        banks: next,
        pages: mapped,
        exram: word,
    }
}
