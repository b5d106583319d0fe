// 01's STATE ranges, tested whole.
ghost use Rattle.std.specs.Prelude.{◌≡◌};
ghost use Rattle.state.specs.Ranges.{in_range};

use crate::{State, sizes};

#[tactic(auto, unfolding(crate::specs::Ranges::in_range))]
pub fn in_range(s: State) -> bool
    ensures { result ≡ in_range s }
{
    let z = s.lengths;
    if !sizes::lengths_ok(z) {
        return false;
    }
    let regs = registers::ranges_ok(s.regs);
    let vsplit = split::control::ranges_ok(s.vsplit);
    let irq = scanline::ranges_ok(s.irq);
    let tiles = scanline::tiles::tiles_ok(s.ppu.tile_number);
    let prg = memory::tables::prg_table_ok(z.prg, z.ram, s.prg_pages);
    let chr = memory::tables::chr_table_ok(z.chr, z.chr_writable, s.chr_pages);
    irq & (regs & (vsplit & ((s.ppu.tile_cache <= 1023) & (tiles & (prg & chr)))))
}
