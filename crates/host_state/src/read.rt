// Words read as groups of the state.
ghost use Rattle.std.specs.Prelude.{◌≡◌, ◌<◌, ◌%◌, get_or};
ghost use Rattle.host_state.specs.Words.{mirroring_numbered, lengths_of, regs_of, split_of, detector_of, status_of, prg_banks_of, chr_banks_of};

use memory::PpuAddr;
use registers::{Mirroring, Regs};
use scanline::Detector;
use split::VSplit;
use state::{Lengths, PpuStatus};

// The low byte of a word. A function: std has none that drops the high byte, and a cast has to be shown to lose nothing.
fn low(n: u16) -> u8
    ensures { result ≡ n % 256 }
{
    (n % 256) as u8
}

pub fn mirroring_numbered(n: u16) -> Mirroring
    ensures { result ≡ mirroring_numbered n }
{
    Mirroring::from(n)
}

pub fn lengths_of(words: &[u16; 144]) -> Lengths
    ensures { result ≡ lengths_of words.now }
{
    Lengths {
        loaded: words[16] == 1,
        prg: (u32::from(words[39]) + 1) * 8192,
        chr: u32::from(words[40]) * 1024,
        ram: u32::from(words[41]) * 1024,
        ciram: 2048,
        exram: 1024,
        chr_writable: words[17] == 1,
    }
}

pub fn regs_of(words: &[u16; 144]) -> Regs
    ensures { result ≡ regs_of words.now }
{
    Regs {
        prg_mode: low(words[24]),
        chr_mode: low(words[25]),
        protect_a: low(words[26]),
        protect_b: low(words[27]),
        exram_mode: low(words[28]),
        exram_chosen: words[18] == 1,
        nametables: low(words[29]),
        fill_tile: low(words[30]),
        fill_attr: low(words[31]),
        chr_hi: words[38] % 4 * 256,
        multiplicand: low(words[32]),
        multiplier: low(words[33]),
    }
}

pub fn split_of(words: &[u16; 144]) -> VSplit
    ensures { result ≡ split_of words.now }
{
    VSplit {
        mode: low(words[34]),
        enabled: words[19] == 1,
        right: words[20] == 1,
        tile: low(words[35]),
        scroll: low(words[36]),
        bank: low(words[37]),
        in_region: words[10] == 1,
        tile_addr: words[11],
    }
}

pub fn detector_of(words: &[u16; 144]) -> Detector
    ensures { result ≡ detector_of words.now }
{
    Detector {
        prev_some: words[0] == 1,
        prev_addr: PpuAddr(words[1]),
        match_count: low(words[2]),
        reading: words[3] == 1,
        idle_count: low(words[4]),
        in_frame: words[5] == 1,
        scanline: words[6],
        pending: words[7] == 1,
        irq_enabled: words[8] == 1,
        irq_scanline: low(words[9]),
    }
}

pub fn status_of(words: &[u16; 144]) -> PpuStatus
    ensures { result ≡ status_of words.now }
{
    PpuStatus {
        tile_number: u32::from(words[12]),
        tile_cache: words[13],
        sprite8x16: words[21] == 1,
        rendering: words[22] == 1,
        bg_set: words[14] == 1,
        bg_written: words[15] == 1,
    }
}

pub fn mirroring_of(words: &[u16; 144]) -> Mirroring
    ensures { result ≡ mirroring_numbered (get_or words.now 23 0) }
{
    mirroring_numbered(words[23])
}

pub fn prg_banks_of(words: &[u16; 144]) -> [u8; 5]
    ensures { result ≡ prg_banks_of words.now }
{
    std::array::from_fn(|i| low(words[42 + i]))
}

pub fn chr_banks_of(words: &[u16; 144]) -> [u8; 16]
    ensures { result ≡ chr_banks_of words.now }
{
    std::array::from_fn(|i| low(words[47 + i]))
}
