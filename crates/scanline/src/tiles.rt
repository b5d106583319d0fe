// The tile count: name fetches so far in a line, kept as one of 84 numbers, and the four ways in which the board looks at it. Beside it, which
// fetches count. 01, modules 5, 6 and 8, and "Fetches, runs, breaks", and CR 7; in the Rust, `tile_number`. Nothing outside this file looks at the
// count's digits.
#![tactic(auto, unfolding(crate::specs::Tiles::sprite_fetch, crate::specs::Tiles::column_of, crate::specs::Tiles::is_prefetched, crate::specs::Tiles::is_first, crate::specs::Tiles::tiles_ok, crate::specs::Tiles::next_tile))]

ghost use Rattle.std.specs.Prelude.{◌≡◌, true};
ghost use Rattle.scanline.specs.Fetches.{counted_at, attribute_at, name_at};
ghost use Rattle.scanline.specs.Tiles.{sprite_fetch, column_of, is_prefetched, is_first, tiles_ok, next_tile, raised_by, left_after};

use memory::PpuAddr;

// $2000-$3EFF: "Only fetches at $2000-$3EFF count here."
pub fn counted(addr: PpuAddr) -> bool
    ensures { result ≡ counted_at addr.0 }
{
    (0x2000..=0x3EFF).contains(&addr.0)
}

pub fn attribute_address(addr: PpuAddr) -> bool
    ensures { result ≡ attribute_at addr.0 }
{
    addr.0 % 1024 >= 0x3C0
}

pub fn name_fetch(addr: PpuAddr) -> bool
    ensures { result ≡ name_at addr.0 }
{
    (0x2000..=0x2FFF).contains(&addr.0) & !attribute_address(addr)
}

// Name fetches 32-39 of a line are those that the PPU makes while it fetches sprite patterns.
pub fn sprite_fetch(tiles: u32) -> bool
    ensures { result ≡ sprite_fetch tiles }
{
    (32..=39).contains(&tiles)
}

// The two tiles fetched ahead at the end of the line before are columns 0 and 1.
pub fn column(tiles: u32) -> u32
    requires { tiles_ok tiles ≡ true }
    ensures { result ≡ column_of tiles }
{
    (tiles + 2) % 42
}

// The tiles from 40 on belong to the line after.
pub fn prefetched(tiles: u32) -> bool
    ensures { result ≡ is_prefetched tiles }
{
    tiles >= 40
}

pub fn first_tiles(tiles: u32) -> bool
    ensures { result ≡ is_first tiles }
{
    tiles < 42
}

// The range of the state's tile count. A test, and no type of its own: program `test_bad_input` hands in states that break it, and README offers each crate
// to emulators, so no function may ask for more than it did.
pub fn tiles_ok(tiles: u32) -> bool
    ensures { result ≡ tiles_ok tiles }
{
    tiles <= 83
}

// One more. From 42 on the four looks tell two counts apart only by their column, so the counts 42 to 83 go round.
fn next_tile(tiles: u32) -> u32
    requires { tiles_ok tiles ≡ true }
    ensures { result ≡ next_tile tiles }
{
    if tiles == 83 { 42 } else { tiles + 1 }
}

// As the tile cache finds the count: one more for a name fetch.
pub fn tiles_raised(tiles: u32, addr: PpuAddr) -> u32
    requires { tiles_ok tiles ≡ true }
    ensures { result ≡ raised_by tiles addr.0 }
{
    if name_fetch(addr) {
        next_tile(tiles)
    } else {
        tiles
    }
}

// As the split finds the count that was raised: the third of a run, and each equal after it, starts it anew. `matches` is the match
// count that the fetch left.
pub fn tiles_after(matches: u8, raised: u32) -> u32
    ensures { result ≡ left_after matches raised }
{
    if matches > 1 { 0 } else { raised }
}
