// CHR banks: the eight pattern pages, from one of two sets of registers, and which set. A mode is a number, as the state has it: 01 gives it a range.
ghost use Rattle.std.specs.Prelude.{◌≡◌, ◌%◌, ◌<◌};
ghost use Rattle.banks.specs.Chr.{window_pages, window_register, chr_number, chr_mapped, background};

use memory::{PageWord, Src};
use registers::Regs;
use state::Lengths;

// How many pages a window of the mode has: 8k, 4k, 2k, 1k.
#[tactic(auto, unfolding(crate::specs::Chr::window_pages))]
fn window_pages(mode: u8) -> u32
    ensures { result ≡ window_pages mode }
{
    match mode {
        0 => 8,
        1 => 4,
        2 => 2,
        _ => 1,
    }
}

// 'A' Set (Sprites), registers 0-7:
//               $0000   $0400   $0800   $0C00   $1000   $1400   $1800   $1C00
//             +---------------------------------------------------------------+
//   C=%00:    |                             $5127                             |
//             +---------------------------------------------------------------+
//   C=%01:    |             $5123             |             $5127             |
//             +-------------------------------+-------------------------------+
//   C=%10:    |     $5121     |     $5123     |     $5125     |     $5127     |
//             +---------------+---------------+---------------+---------------+
//   C=%11:    | $5120 | $5121 | $5122 | $5123 | $5124 | $5125 | $5126 | $5127 |
//             +-------+-------+-------+-------+-------+-------+-------+-------+
//
// 'B' Set (BG), registers 8-15, where $5128-$512B stand twice:
//               $0000   $0400   $0800   $0C00   $1000   $1400   $1800   $1C00
//             +-------------------------------+-------------------------------+
//   C=%00:    |                             $512B                             |
//             +-------------------------------+-------------------------------+
//   C=%01:    |             $512B             |             $512B             |
//             +-------------------------------+-------------------------------+
//   C=%10:    |     $5129     |     $512B     |     $5129     |     $512B     |
//             +---------------+---------------+---------------+---------------+
//   C=%11:    | $5128 | $5129 | $512A | $512B | $5128 | $5129 | $512A | $512B |
//             +-------+-------+-------+-------+-------+-------+-------+-------+
//
// The register, in its set, by which the page at place k of the eight goes: the last of its window.
#[tactic(auto, unfolding(crate::specs::Chr::window_pages))]
fn register_at(mode: u8, k: usize) -> usize
    requires { k < 8 }
    ensures { result ≡ window_register (window_pages mode) k }
{
    match mode {
        0 => 7,
        1 => k / 4 * 4 + 3,
        2 => k / 2 * 2 + 1,
        _ => k,
    }
}

// The page's place in its window.
#[tactic(auto, unfolding(crate::specs::Chr::window_pages))]
fn place_in(mode: u8, k: usize) -> u32
    ensures { result ≡ k % window_pages mode }
{
    match mode {
        0 => (k % 8) as u32,
        1 => (k % 4) as u32,
        2 => (k % 2) as u32,
        _ => 0,
    }
}

// The number of the CHR page that a set shows at place k of the eight.
#[tactic(auto, using(crate::proofs::BankLaws::register_inside, crate::proofs::BankLaws::size_most, crate::proofs::BankLaws::place_inside, crate::proofs::BankLaws::number_fits, std::proofs::lemmas::Nat::widths), unfolding(crate::specs::Chr::chr_number, crate::specs::Chr::window_pages))]
pub fn chr_number(regs: Regs, banks: [u8; 16], background: bool, k: usize) -> u32
    requires { k < 8 }
    ensures { result ≡ chr_number regs banks background k }
{
    let mode = regs.chr_mode;
    let first = if background { 8 } else { 0 };
    let bank = banks[first + register_at(mode, k)] as u16 | regs.chr_hi;
    bank as u32 * window_pages(mode) + place_in(mode, k)
}

// The table with the eight pattern pages mapped.
#[tactic(auto, using(crate::proofs::PlacedLaws::placed_none, crate::proofs::PlacedLaws::placed_more_first), unfolding(crate::specs::Chr::chr_mapped))]
pub fn map_chr(
    lengths: Lengths,
    regs: Regs,
    banks: [u8; 16],
    background: bool,
    mut pages: [PageWord; 16],
) -> [PageWord; 16]
    ensures { result ≡ chr_mapped lengths.chr lengths.chr_writable regs banks background pages }
{
    for k in 0..8 {
        let number = chr_number(regs, banks, background, k);
        pages[k] = memory::windows::chr_window(Src::Chr, lengths.chr, number, lengths.chr_writable);
    }
    pages
}

// Which set a pattern fetch wants: the background's, or the sprites'.
pub fn wants_background(
    sprite8x16: bool,
    sprite_fetch: bool,
    in_frame: bool,
    bg_written: bool,
) -> bool
    ensures { result ≡ background (record { tall = sprite8x16; fetching_sprites = sprite_fetch; framed = in_frame; written_to_background = bg_written }) }
{
    sprite8x16 & (!sprite_fetch & (in_frame | bg_written))
}
