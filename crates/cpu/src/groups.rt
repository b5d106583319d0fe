// What a CPU write leaves in each group of the state, by its address.
ghost use Rattle.std.specs.Prelude.{◌≡◌};
ghost use Rattle.cpu.specs.Groups.{within, split_after, irq_after, prg_banks_after, chr_banks_after};

use memory::CpuAddr;
use scanline::Detector;
use split::VSplit;

#[tactic(auto, unfolding(crate::specs::Groups::split_after))]
pub fn split_after(v: VSplit, addr: CpuAddr, val: u8) -> VSplit
    ensures { result ≡ split_after v addr.0 val }
{
    match addr.0 {
        0x5200 => split::control::set_control(v, val),
        0x5201 => split::control::set_scroll(v, val),
        0x5202 => split::control::set_bank(v, val),
        _ => v,
    }
}

#[tactic(auto, unfolding(crate::specs::Groups::irq_after))]
pub fn irq_after(d: Detector, addr: CpuAddr, val: u8) -> Detector
    ensures { result ≡ irq_after d addr.0 val }
{
    match addr.0 {
        0x5203 => scanline::set_target(d, val),
        0x5204 => scanline::set_enabled(d, val),
        _ => d,
    }
}

// An address from one to another.
pub fn is_within(lo: u16, hi: u16, addr: CpuAddr) -> bool
    ensures { result ≡ within lo hi addr.0 }
{
    (lo..=hi).contains(&addr.0)
}

#[tactic(auto, unfolding(crate::specs::Groups::prg_banks_after))]
pub fn prg_banks_after(banks: [u8; 5], addr: CpuAddr, val: u8) -> [u8; 5]
    ensures { result ≡ prg_banks_after banks addr.0 val }
{
    let mut next = banks;
    if is_within(0x5113, 0x5117, addr) {
        next[(addr.0 - 0x5113) as usize] = val;
    }
    next
}

// The background's four registers stand twice, at index + 4 too.
#[tactic(auto, unfolding(crate::specs::Groups::chr_banks_after))]
pub fn chr_banks_after(banks: [u8; 16], addr: CpuAddr, val: u8) -> [u8; 16]
    ensures { result ≡ chr_banks_after banks addr.0 val }
{
    let mut next = banks;
    if is_within(0x5120, 0x512B, addr) {
        let at = (addr.0 - 0x5120) as usize;
        next[at] = val;
        if at >= 8 {
            next[at + 4] = val;
        }
    }
    next
}
