// The board's calls, over buffers that are lent for one call.
ghost use Rattle.std.specs.Prelude.{◌≤◌};

use answers::Answer;
use board::Outcome;
use board::loads::Settings;
use memory::{CpuAddr, PpuAddr};
use registers::Mirroring;
use state::State;

// CHR-ROM, mirrored horizontally.
const PLAIN: Settings = Settings {
    chr_writable: false,
    mirroring: Mirroring::Horizontal,
};

static ZEROS: [u8; 8192] = [0; 8192];

// The first bytes of a buffer of zeros.
pub fn zeros(len: usize) -> &'static [u8]
    requires { len ≤ 8192 }
{
    &ZEROS[..len]
}

// What is lent for the calls that store nothing.
#[derive(Clone, Copy)]
pub struct Lent<'a> {
    pub prg: &'a [u8],
    pub chr: &'a [u8],
    pub ram: &'a [u8],
    pub ciram: &'a [u8],
    pub exram: &'a [u8],
}

// Buffers of the lengths that the load of this program records.
pub fn as_recorded() -> Lent<'static> {
    Lent {
        prg: zeros(8192),
        chr: zeros(8192),
        ram: zeros(8192),
        ciram: zeros(2048),
        exram: zeros(1024),
    }
}

impl Lent<'_> {
    pub fn load(self) -> Outcome {
        board::loads::load(self.prg, self.chr, self.ram, self.ciram, self.exram, PLAIN)
    }

    pub fn cpu_read(self, s: State, addr: u16) -> Outcome {
        board::cpu_side::cpu_read(
            s,
            self.prg,
            self.chr,
            self.ram,
            self.ciram,
            self.exram,
            CpuAddr(addr),
        )
    }

    pub fn cpu_peek(self, s: State, addr: u16) -> Answer {
        board::cpu_side::cpu_peek(
            s,
            self.prg,
            self.chr,
            self.ram,
            self.ciram,
            self.exram,
            CpuAddr(addr),
        )
    }

    pub fn ppu_fetch(self, s: State, addr: u16) -> Outcome {
        board_ppu::fetches::ppu_fetch(
            s,
            self.prg,
            self.chr,
            self.ram,
            self.ciram,
            self.exram,
            PpuAddr(addr),
        )
    }
}

// A write, over buffers of the recorded lengths, fixed ones as there is no heap.
pub fn written(s: State, addr: u16) -> Answer {
    let prg = [0u8; 8192];
    let mut chr = [0u8; 8192];
    let mut ram = [0u8; 8192];
    let mut ciram = [0u8; 2048];
    let mut exram = [0u8; 1024];
    let outcome = board::cpu_side::cpu_write(
        s,
        &prg,
        &mut chr,
        &mut ram,
        &mut ciram,
        &mut exram,
        CpuAddr(addr),
        1,
    );
    outcome.answer
}
