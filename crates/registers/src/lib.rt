// The small registers: modes, protection, ExRAM's mode, nametable selectors, fill, the upper CHR bits, the multiplier, and mirroring.
// 01, module 3, and their part of module 9; in the Rust, `Regs` and its arms of `write_register`.
#![tactic(auto)]

ghost use Rattle.std.specs.Prelude.{◌≡◌};
ghost use Rattle.memory.specs.Tests.{pick};
ghost use Rattle.registers.specs.Registers.{regs_at_load, reset_regs, written, attribute_use, nametable_use, unlocked, regs_ok};
ghost use Rattle.registers.specs.Mirrorings.{mirroring_numbered, mirroring_of, mirroring_after};

use memory::CpuAddr;

// `exram_chosen` says that $5104 was written: nametable use is off before. It is no `Option` of the mode, which is 0 before, and read and gone by. By default all is 0 and off, as in the state of a refused load.
// Modes are numbers and no enums: 01 has "mode numbers 0-3", and a state handed in with another is refused with 5 (program `test_bad_input`, mode 4).
#[derive(Clone, Copy, Debug, PartialEq, Eq, Default)]
pub struct Regs {
    pub prg_mode: u8,
    pub chr_mode: u8,
    pub protect_a: u8,
    pub protect_b: u8,
    pub exram_mode: u8,
    pub exram_chosen: bool,
    pub nametables: u8,
    pub fill_tile: u8,
    pub fill_attr: u8,
    pub chr_hi: u16,
    pub multiplicand: u8,
    pub multiplier: u8,
}

// With Rust's numbers, 0 to 4: `as` gives them, and `from` goes back.
#[derive(Clone, Copy, Debug, PartialEq, Eq)]
pub enum Mirroring {
    Horizontal,
    Vertical,
    SingleScreenA,
    SingleScreenB,
    FourScreen,
}

// A number above 4 is no other mirroring: it counts as FourScreen.
impl From<u16> for Mirroring {
    ghost from_gives = { λ n m. m ≡ mirroring_numbered n };

    fn from(n: u16) -> Mirroring {
        match n {
            0 => Mirroring::Horizontal,
            1 => Mirroring::Vertical,
            2 => Mirroring::SingleScreenA,
            3 => Mirroring::SingleScreenB,
            _ => Mirroring::FourScreen,
        }
    }
}

// As load leaves them.
pub fn new() -> Regs
    ensures { result ≡ regs_at_load }
{
    Regs {
        prg_mode: 3,
        chr_mode: 3,
        protect_a: 0,
        protect_b: 0,
        exram_mode: 0,
        exram_chosen: false,
        nametables: 0,
        fill_tile: 255,
        fill_attr: 3,
        chr_hi: 0,
        multiplicand: 255,
        multiplier: 255,
    }
}

// Modes 8k and 1k.
pub fn reset(regs: Regs) -> Regs
    ensures { result ≡ reset_regs regs }
{
    Regs {
        prg_mode: 3,
        chr_mode: 3,
        ..regs
    }
}

// ExRAM holds attributes.
pub fn attribute_use(regs: Regs) -> bool
    ensures { result ≡ attribute_use regs }
{
    regs.exram_mode == 1
}

// ExRAM can be a nametable.
pub fn nametable_use(regs: Regs) -> bool
    ensures { result ≡ nametable_use regs }
{
    regs.exram_chosen & (regs.exram_mode <= 1)
}

// PRG-RAM takes writes.
pub fn unlocked(regs: Regs) -> bool
    ensures { result ≡ unlocked regs }
{
    (regs.protect_a == 2) & (regs.protect_b == 1)
}

// Attribute mode has 4k banks only.
fn chr_mode_for(regs: Regs, mode: u8) -> u8
    ensures { result ≡ pick (attribute_use regs) 1 mode }
{
    if attribute_use(regs) { 1 } else { mode }
}

// A CPU write.
#[tactic(auto, unfolding(crate::specs::Registers::written))]
pub fn write(regs: Regs, addr: CpuAddr, val: u8) -> Regs
    ensures { result ≡ written regs addr.0 val }
{
    let mut next = regs;
    let low = val % 4;
    match addr.0 {
        0x5100 => next.prg_mode = low,
        0x5101 => next.chr_mode = chr_mode_for(regs, low),
        0x5102 => next.protect_a = low,
        0x5103 => next.protect_b = low,
        0x5104 => {
            next.exram_mode = low;
            next.exram_chosen = true;
        }
        0x5105 => next.nametables = val,
        0x5106 => next.fill_tile = val,
        0x5107 => next.fill_attr = low,
        0x5130 => next.chr_hi = low as u16 * 256,
        0x5205 => next.multiplicand = val,
        0x5206 => next.multiplier = val,
        _ => {}
    }
    next
}

// What $5105 makes of the mirroring that the console is told.
fn mirroring_of(val: u8) -> Mirroring
    ensures { result ≡ mirroring_of val }
{
    match val {
        0x50 => Mirroring::Horizontal,
        0x44 => Mirroring::Vertical,
        0x00 => Mirroring::SingleScreenA,
        0x55 => Mirroring::SingleScreenB,
        _ => Mirroring::FourScreen,
    }
}

pub fn mirroring_after(mirroring: Mirroring, addr: CpuAddr, val: u8) -> Mirroring
    ensures { result ≡ mirroring_after mirroring addr.0 val }
{
    if addr.0 == 0x5105 {
        mirroring_of(val)
    } else {
        mirroring
    }
}

// "fill attribute and mode numbers 0-3; protect bytes 0-3; .. `chr_hi` one of 0, 256, 512, 768"
#[tactic(auto, unfolding(crate::specs::Registers::regs_ok))]
pub fn ranges_ok(regs: Regs) -> bool
    ensures { result ≡ regs_ok regs }
{
    (regs.prg_mode <= 3)
        & ((regs.chr_mode <= 3)
            & ((regs.exram_mode <= 3)
                & ((regs.fill_attr <= 3)
                    & ((regs.protect_a <= 3)
                        & ((regs.protect_b <= 3)
                            & ((regs.chr_hi % 256 == 0) & (regs.chr_hi <= 768)))))))
}
