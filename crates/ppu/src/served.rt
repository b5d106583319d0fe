// What is served in the page's place, in the order split, attribute mode, fill; else the page's answer. Nothing changes here.
ghost use Rattle.std.specs.Prelude.{◌≡◌};
ghost use Rattle.ppu.specs.Served.{direct, ex_offset, split_byte, fill_byte, counted_served, pattern_served, sprite_byte};

use answers::Answer;
use memory::PpuAddr;
use registers::Regs;
use scanline::Detector;
use split::VSplit;
use state::PpuStatus;

// A byte of CHR by its offset, taken modulo the length; empty CHR has 0.
#[tactic(auto, unfolding(crate::specs::Served::direct))]
pub fn direct_byte(chr: &[u8], offset: usize) -> u8
    ensures { result ≡ direct chr.now offset }
{
    if chr.is_empty() {
        0
    } else {
        chr[offset % chr.len()]
    }
}

// In attribute mode: the CHR offset that a tile's ExRAM byte and $5130 name.
#[tactic(auto, unfolding(crate::specs::Served::ex_offset))]
pub fn ex_offset(hi: u16, byte: u8, addr: PpuAddr) -> u32
    ensures { result ≡ ex_offset hi byte addr.0 }
{
    ((hi as u32) << 10) | ((byte as u32 & 0x3F) << 12) | (addr.0 as u32 & 0xFFF)
}

// In the split's region: the tile's number for a name fetch, else its attribute.
#[tactic(auto, unfolding(crate::specs::Served::split_byte))]
fn split_byte(v: VSplit, exram: &[u8], name: bool) -> u8
    ensures { result ≡ split_byte v exram.now name }
{
    let t = v.tile_addr;
    if name {
        return memory::bytes::byte(exram, t as usize);
    }
    let place = split::places::attribute_place(t);
    let byte = memory::bytes::byte(exram, place.addr as usize);
    split::places::mirrored(split::places::attribute_bits(byte, place.shift))
}

// Fill: its tile, or at an attribute address its attribute.
fn fill_byte(regs: Regs, attribute: bool) -> u8
    ensures { result ≡ fill_byte regs attribute }
{
    if attribute {
        split::places::mirrored(regs.fill_attr)
    } else {
        regs.fill_tile
    }
}

// At $2000-$3EFF.
#[tactic(auto, unfolding(crate::specs::Served::counted_served))]
pub fn counted_served(
    regs: Regs,
    v: VSplit,
    in_frame: bool,
    p: PpuStatus,
    exram: &[u8],
    addr: PpuAddr,
    page: Answer,
) -> Answer
    ensures { result ≡ counted_served regs v in_frame p exram.now addr.0 page }
{
    let as_name = registers::nametable_use(regs);
    let attribute = scanline::tiles::attribute_address(addr);
    let active = split::control::active(v, as_name, in_frame);
    if active & v.in_region {
        let name = scanline::tiles::name_fetch(addr);
        return Answer::Served(split_byte(v, exram, name));
    }
    let sprites = scanline::tiles::sprite_fetch(p.tile_number);
    let by_tile = registers::attribute_use(regs);
    if by_tile & attribute & !sprites {
        let byte = memory::bytes::byte(exram, p.tile_cache as usize);
        return Answer::Served(split::places::mirrored(byte / 64));
    }
    let selector = banks::names::selector_of(regs.nametables, (addr.0 / 1024) as u32);
    if as_name & (selector == 3) {
        return Answer::Served(fill_byte(regs, attribute));
    }
    page
}

// At $0000-$1FFF.
#[tactic(auto, unfolding(crate::specs::Served::pattern_served))]
pub fn pattern_served(
    regs: Regs,
    v: VSplit,
    irq: Detector,
    p: PpuStatus,
    exram: &[u8],
    chr: &[u8],
    addr: PpuAddr,
    page: Answer,
) -> Answer
    ensures { result ≡ pattern_served regs v irq p exram.now chr.now addr.0 page }
{
    let as_name = registers::nametable_use(regs);
    let active = split::control::active(v, as_name, irq.in_frame);
    if active & v.in_region {
        let ahead = scanline::tiles::prefetched(p.tile_number);
        let scroll = split::region::scroll_of(irq.scanline, ahead, v.scroll);
        let offset = split::places::pattern_offset(v.bank, addr, scroll);
        return Answer::Served(direct_byte(chr, offset as usize));
    }
    let sprites = scanline::tiles::sprite_fetch(p.tile_number);
    let by_tile = registers::attribute_use(regs);
    if by_tile & !sprites {
        let byte = memory::bytes::byte(exram, p.tile_cache as usize);
        let offset = ex_offset(regs.chr_hi, byte, addr);
        return Answer::Served(direct_byte(chr, offset as usize));
    }
    page
}

// The byte that the sprites' set would map at a pattern address.
#[tactic(auto, unfolding(crate::specs::Served::sprite_byte))]
pub fn sprite_byte(regs: Regs, banks: [u8; 16], chr: &[u8], addr: PpuAddr) -> u8
    ensures { result ≡ sprite_byte regs banks chr.now addr.0 }
{
    let number = banks::chr::chr_number(regs, banks, false, (addr.0 / 1024 % 8) as usize);
    direct_byte(chr, number as usize * 1024 + (addr.0 % 1024) as usize)
}
