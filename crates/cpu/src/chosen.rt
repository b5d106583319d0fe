// Which CHR set the table holds, and which set the last CHR write was to.
ghost use Rattle.std.specs.Prelude.{◌≡◌};
ghost use Rattle.cpu.specs.Chosen.{chosen, ppu_after, set_changed};

use memory::CpuAddr;
use state::PpuStatus;

// The set is chosen anew. With 8x8 sprites the background's registers are not looked at, so the last write counts as one to the sprites'.
#[tactic(auto, unfolding(crate::specs::Chosen::chosen))]
pub fn choose(p: PpuStatus, in_frame: bool) -> PpuStatus
    ensures { result ≡ chosen p in_frame }
{
    let written = p.sprite8x16 & p.bg_written;
    let sprites = scanline::tiles::sprite_fetch(p.tile_number);
    PpuStatus {
        bg_written: written,
        bg_set: banks::chr::wants_background(p.sprite8x16, sprites, in_frame, written),
        ..p
    }
}

// A CPU write: $5101 and the CHR registers choose.
#[tactic(auto, unfolding(crate::specs::Chosen::ppu_after))]
pub fn ppu_after(p: PpuStatus, in_frame: bool, addr: CpuAddr) -> PpuStatus
    ensures { result ≡ ppu_after p in_frame addr.0 }
{
    let bg_written = match addr.0 {
        0x5101 => p.bg_written,
        0x5120..=0x5127 => false,
        0x5128..=0x512B => true,
        _ => return p,
    };
    choose(PpuStatus { bg_written, ..p }, in_frame)
}

// The set that the table holds is not the one wanted.
pub fn set_changed(before: bool, after: bool) -> bool
    ensures { result ≡ set_changed before after }
{
    before != after
}
