// One group of the state, put into the words where it stands.
ghost use Rattle.std.specs.Prelude.{◌≡◌, ◌-◌, ◌/◌};
ghost use Rattle.host_state.specs.Put.{length_words, mode_words, reg_words, region_words, split_words, irq_words, tile_words, set_words, status_words, mirroring_words, prg_bank_words, chr_bank_words, exram_words};
ghost use Rattle.host_state.specs.Words.{number_of_mirroring};

use memory::PageWord;
use registers::{Mirroring, Regs};
use scanline::Detector;
use split::VSplit;
use state::{Lengths, PpuStatus};

// The modes, the protection, the ExRAM mode and $5105, for `put_regs`.
fn put_modes(g: Regs, words: &mut [u16; 144])
    ensures { words.new ≡ mode_words words.old g }
{
    words[18] = g.exram_chosen as u16;
    words[24] = g.prg_mode as u16;
    words[25] = g.chr_mode as u16;
    words[26] = g.protect_a as u16;
    words[27] = g.protect_b as u16;
    words[28] = g.exram_mode as u16;
    words[29] = g.nametables as u16;
}

pub fn put_regs(g: Regs, words: &mut [u16; 144])
    ensures { words.new ≡ reg_words words.old g }
{
    put_modes(g, words);
    words[30] = g.fill_tile as u16;
    words[31] = g.fill_attr as u16;
    words[32] = g.multiplicand as u16;
    words[33] = g.multiplier as u16;
    words[38] = g.chr_hi / 256;
}

// Of the split a fetch changes the region and the tile address.
pub fn put_region(v: VSplit, words: &mut [u16; 144])
    ensures { words.new ≡ region_words words.old v }
{
    words[10] = v.in_region as u16;
    words[11] = v.tile_addr;
}

pub fn put_split(v: VSplit, words: &mut [u16; 144])
    ensures { words.new ≡ split_words words.old v }
{
    put_region(v, words);
    words[19] = v.enabled as u16;
    words[20] = v.right as u16;
    words[34] = v.mode as u16;
    words[35] = v.tile as u16;
    words[36] = v.scroll as u16;
    words[37] = v.bank as u16;
}

pub fn put_detector(d: Detector, words: &mut [u16; 144])
    ensures { words.new ≡ irq_words words.old d }
{
    words[0] = d.prev_some as u16;
    words[3] = d.reading as u16;
    words[5] = d.in_frame as u16;
    words[7] = d.pending as u16;
    words[8] = d.irq_enabled as u16;
    words[2] = d.match_count as u16;
    words[4] = d.idle_count as u16;
    words[9] = d.irq_scanline as u16;
    words[1] = d.prev_addr.0;
    words[6] = d.scanline;
}

// Of the PPU status a fetch that counts changes the tile cache and the tile count.
pub fn put_tiles(p: PpuStatus, words: &mut [u16; 144])
    ensures { words.new ≡ tile_words words.old p }
{
    words[13] = p.tile_cache;
    words[12] = (p.tile_number % 65536) as u16;
}

// A fetch that chooses a set changes the set, and which set the last CHR write was to.
pub fn put_set(p: PpuStatus, words: &mut [u16; 144])
    ensures { words.new ≡ set_words words.old p }
{
    words[14] = p.bg_set as u16;
    words[15] = p.bg_written as u16;
}

pub fn put_status(p: PpuStatus, words: &mut [u16; 144])
    ensures { words.new ≡ status_words words.old p }
{
    put_tiles(p, words);
    put_set(p, words);
    words[21] = p.sprite8x16 as u16;
    words[22] = p.rendering as u16;
}

// The mirrorings count from 0 in the order of their type.
pub fn number_of_mirroring(m: Mirroring) -> u16
    ensures { result ≡ number_of_mirroring m }
{
    m as u16
}

pub fn put_mirroring(m: Mirroring, words: &mut [u16; 144])
    ensures { words.new ≡ mirroring_words words.old m }
{
    words[23] = number_of_mirroring(m);
}

pub fn put_prg_banks(b: [u8; 5], words: &mut [u16; 144])
    ensures { words.new ≡ prg_bank_words words.old b }
{
    words[42..47].copy_from_slice(&b.map(u16::from));
}

pub fn put_chr_banks(b: [u8; 16], words: &mut [u16; 144])
    ensures { words.new ≡ chr_bank_words words.old b }
{
    words[47..63].copy_from_slice(&b.map(u16::from));
}

// ExRAM's page, at $5C00.
pub fn put_exram_word(x: PageWord, words: &mut [u16; 144])
    ensures { words.new ≡ exram_words words.old x }
{
    words[87] = x.0;
}

// Banks of 8 KiB, less one.
fn last_bank(prg: u32) -> u32
    ensures { result ≡ prg / 8192 - 1 }
{
    (prg / 8192).saturating_sub(1)
}

pub fn put_lengths(z: Lengths, words: &mut [u16; 144])
    ensures { words.new ≡ length_words words.old z }
{
    words[16] = z.loaded as u16;
    words[17] = z.chr_writable as u16;
    words[39] = (last_bank(z.prg) % 65536) as u16;
    words[40] = (z.chr / 1024 % 65536) as u16;
    words[41] = (z.ram / 1024 % 65536) as u16;
}
