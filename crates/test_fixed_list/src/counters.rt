// The counters of a case: the line counter in two bytes and the full tile count in four, low ones first. No short trace
// brings the line counter near its limit, or the Rust's tile count near the end of its 32 bits.
ghost use Rattle.std.specs.Prelude.{◌≡◌};
ghost use Rattle.test_fixed_list.specs.Counters.{line_of, tile_of, is_in_frame, start_of};
ghost use Rattle.scanline.specs.Tiles.{fold};

use crate::case::After;
use state::State;

fn line_of(b: &[u8; 6]) -> u16
    ensures { result ≡ line_of b.now }
{
    u16::from_le_bytes([b[0], b[1]])
}

fn tile_of(b: &[u8; 6]) -> u32
    ensures { result ≡ tile_of b.now }
{
    u32::from_le_bytes([b[2], b[3], b[4], b[5]])
}

// What a board keeps of a full tile count.
#[tactic(auto, unfolding(scanline::specs::Tiles::fold))]
fn kept(full: u32) -> u32
    ensures { result ≡ fold full }
{
    if full < 42 {
        return full;
    }
    42 + (full - 42) % 42
}

fn in_frame(s: State, line: u16, tile: u32) -> State
    ensures { result ≡ is_in_frame line tile s }
{
    let mut t = s;
    t.irq.in_frame = true;
    t.irq.scanline = line;
    t.ppu.tile_number = tile;
    t
}

// The state in frame with the case's counters, where it has some.
pub fn start(after: After<'_>, s: State) -> State
    ensures { result ≡ start_of after.entry s }
{
    match after {
        After::Counters(b) => in_frame(s, line_of(b), kept(tile_of(b))),
        _ => s,
    }
}
