// The board's state, by value: what load recorded, and the groups of registers, each with the crate that works on it. In the Rust, `Exrom`
// and the page tables of `Memory`. Where 01 gives a field a range it is a number and `ranges` tests it; where it gives none the type
// admits no bad value. Nothing is stored that follows from the rest: `irq_pending` and `mult_result` are not.
#![tactic(auto)]

ghost use Rattle.state.specs.Puts.{OneField};

pub mod gate;
pub mod ranges;
pub mod sizes;

use memory::PageWord;
use registers::{Mirroring, Regs};
use scanline::Detector;
use split::VSplit;

// The lengths that load took, and whether it took CHR as RAM. `loaded` with them is no `Option` of lengths: the host's words 16 and 39 to 41 hold both,
// and `WordsAndStates` (crate `host_state`) has words for each state.
#[derive(Clone, Copy, Default)]
pub struct Lengths {
    pub loaded: bool,
    pub prg: u32,
    pub chr: u32,
    pub ram: u32,
    pub ciram: u32,
    pub exram: u32,
    pub chr_writable: bool,
}

// After the Rust's `PpuStatus`, with its `tile_cache`, `chr_set` and `last_chr_write`: `bg_set` says that the CHR table holds the
// background's set, `bg_written` that the last CHR write was one to it.
#[derive(Clone, Copy, Default)]
pub struct PpuStatus {
    pub tile_number: u32,
    pub tile_cache: u16,
    pub sprite8x16: bool,
    pub rendering: bool,
    pub bg_set: bool,
    pub bg_written: bool,
}

#[derive(Clone, Copy)]
pub struct Screen {
    pub mirroring: Mirroring,
}

// `irq` is the scanline detector, `prg_banks` $5113-$5117, `chr_banks` $5120-$512B with the last four twice.
#[derive(Clone, Copy)]
pub struct State {
    pub lengths: Lengths,
    pub regs: Regs,
    pub vsplit: VSplit,
    pub irq: Detector,
    pub ppu: PpuStatus,
    pub screen: Screen,
    pub prg_banks: [u8; 5],
    pub chr_banks: [u8; 16],
    pub prg_pages: [PageWord; 64],
    pub chr_pages: [PageWord; 16],
}

// No code: its contract holds that each definition of specs/With.antt puts one field and touches no other.
pub fn promises()
    ensures { OneField }
{}
