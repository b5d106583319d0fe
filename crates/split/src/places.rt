// What a fetch in the region gets: the attribute place of a split tile, its two bits mirrored, and the pattern's offset in CHR.
ghost use Rattle.std.specs.Prelude.{◌≡◌};
ghost use Rattle.split.specs.Places.{attribute_place, attribute_bits, mirrored_byte, pattern_offset};

use crate::AttributePlace;
use memory::PpuAddr;

// An attribute byte serves four by four tiles: eight bytes for a row of them, from $3C0 on, and two bits for two by two tiles.
#[tactic(auto, unfolding(crate::specs::Places::attribute_address, crate::specs::Places::attribute_shift))]
pub fn attribute_place(t: u16) -> AttributePlace
    ensures { result ≡ attribute_place t }
{
    AttributePlace {
        addr: 0x3C0 | ((t & 0x380) >> 4) | ((t & 0x1F) >> 2),
        shift: (((t >> 4) & 4) | (t & 2)) as u8,
    }
}

#[tactic(auto, using(crate::proofs::PlaceLaws::shifted_out))]
pub fn attribute_bits(byte: u8, shift: u8) -> u8
    ensures { result ≡ attribute_bits byte shift }
{
    if shift < 8 { (byte >> shift) % 4 } else { 0 }
}

#[tactic(auto, unfolding(crate::specs::Places::mirrored_byte))]
pub fn mirrored(bits: u8) -> u8
    ensures { result ≡ mirrored_byte bits }
{
    match bits % 4 {
        0 => 0x00,
        1 => 0x55,
        2 => 0xAA,
        _ => 0xFF,
    }
}

// The split's 4k page, the tile's line from the split's own scroll.
#[tactic(auto, unfolding(crate::specs::Places::pattern_offset))]
pub fn pattern_offset(bank: u8, addr: PpuAddr, scroll: u16) -> u32
    ensures { result ≡ pattern_offset bank addr.0 scroll }
{
    ((bank as u32) << 12) | ((((addr.0 as u32 >> 3) << 3) | (scroll as u32 & 7)) & 0xFFF)
}
