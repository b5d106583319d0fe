// What a fetch leaves in the groups of the state.
ghost use Rattle.std.specs.Prelude.{◌≡◌, true};
ghost use Rattle.scanline.specs.Tiles.{tiles_ok};
ghost use Rattle.ppu.specs.Cache.{cache_after};
ghost use Rattle.ppu.specs.Fetches.{ppu_seen, split_seen};

use memory::PpuAddr;
use registers::Regs;
use scanline::Detector;
use split::VSplit;
use state::PpuStatus;

// The tile cache: the address's low ten bits, in attribute mode, not at an attribute address, outside the sprites' fetches.
#[tactic(auto, unfolding(crate::specs::Cache::cache_after))]
fn cache_after(regs: Regs, cache: u16, raised: u32, addr: PpuAddr) -> u16
    ensures { result ≡ cache_after regs cache raised addr.0 }
{
    let by_tile = registers::attribute_use(regs);
    let attribute = scanline::tiles::attribute_address(addr);
    let sprites = scanline::tiles::sprite_fetch(raised);
    if by_tile & !attribute & !sprites {
        addr.0 % 1024
    } else {
        cache
    }
}

// The tile count and the tile cache after a fetch at $2000-$3EFF, which left `matches` in the detector.
#[tactic(auto, unfolding(crate::specs::Fetches::ppu_seen))]
pub fn ppu_seen(regs: Regs, matches: u8, p: PpuStatus, addr: PpuAddr) -> PpuStatus
    requires { tiles_ok p.tile_number ≡ true }
    ensures { result ≡ ppu_seen regs matches p addr.0 }
{
    let raised = scanline::tiles::tiles_raised(p.tile_number, addr);
    PpuStatus {
        tile_cache: cache_after(regs, p.tile_cache, raised, addr),
        tile_number: scanline::tiles::tiles_after(matches, raised),
        ..p
    }
}

// The split's region after a fetch: a name fetch moves it while the split is active. Detector and tile count are those after the fetch.
#[tactic(auto, unfolding(crate::specs::Fetches::split_seen, scanline::specs::Tiles::column_of))]
pub fn split_seen(regs: Regs, v: VSplit, irq: Detector, tiles: u32, addr: PpuAddr) -> VSplit
    requires { tiles_ok tiles ≡ true }
    ensures { result ≡ split_seen regs v irq tiles addr.0 }
{
    let as_name = registers::nametable_use(regs);
    let active = split::control::active(v, as_name, irq.in_frame);
    let name = scanline::tiles::name_fetch(addr);
    if name & active {
        let column = scanline::tiles::column(tiles) as u16;
        let first = scanline::tiles::first_tiles(tiles);
        let ahead = scanline::tiles::prefetched(tiles);
        let scroll = split::region::scroll_of(irq.scanline, ahead, v.scroll);
        split::region::moved(v, column, first, scroll)
    } else {
        v
    }
}
