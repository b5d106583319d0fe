// A PPU register write: what it leaves in the PPU status and in the detector.
ghost use Rattle.std.specs.Prelude.{◌≡◌};
ghost use Rattle.cpu.specs.PpuRegisters.{status_after, detector_after};

use memory::CpuAddr;
use scanline::Detector;
use state::PpuStatus;

// $2000 tells the sprites' size, $2001 whether the PPU renders. The registers' mirrors do nothing.
#[tactic(auto, unfolding(crate::specs::PpuRegisters::status_after))]
pub fn status_after(p: PpuStatus, addr: CpuAddr, val: u8) -> PpuStatus
    ensures { result ≡ status_after p addr.0 val }
{
    match addr.0 {
        0x2000 => PpuStatus {
            sprite8x16: val / 32 % 2 == 1,
            ..p
        },
        0x2001 => PpuStatus {
            rendering: val / 8 % 4 != 0,
            ..p
        },
        _ => p,
    }
}

// Where the PPU is told not to render, that is a break.
#[tactic(auto, unfolding(crate::specs::PpuRegisters::detector_after))]
pub fn detector_after(d: Detector, addr: CpuAddr, val: u8) -> Detector
    ensures { result ≡ detector_after d addr.0 val }
{
    if (addr.0 == 0x2001) & (val / 8 % 4 == 0) {
        scanline::darkened(d)
    } else {
        d
    }
}
