// Traces: the calls of a session as bytes, read record by record. 01, "Trace". What the bytes mean stands in specs/: Numbers.antt for the
// numbers, Records.antt for the kinds and the records, Refusals.antt for 9 and 10, Promise.antt for what follows from that, Examples.antt for worked cases, Cartridge.antt for
// the cartridge that the program `replay` plays a trace over.
#![tactic(auto)]

ghost use Rattle.std.specs.Prelude.{◌≡◌};
ghost use Rattle.answers.specs.declared.Refusal.TheVariants.{Number};
ghost use Rattle.trace.specs.Records.{kind_of, too_long};
ghost use Rattle.trace.specs.Promise.{Reading};
ghost use Rattle.trace.specs.Cartridge.{CartridgeBytes};
ghost use Rattle.trace.specs.Examples.{Examples};

use answers::Refusal;
use memory::{CpuAddr, PpuAddr};

pub mod numbers;
pub mod reader;
pub mod records;

// A call that a trace can tell, in the order of the kinds. The PPU's registers have CPU addresses.
#[derive(Clone, Copy)]
pub enum Call {
    Clock,
    CpuRead(CpuAddr),
    CpuWrite(CpuAddr, u8),
    PpuRegister(CpuAddr, u8),
    PpuFetch(PpuAddr),
    Reset,
    PpuWrite(PpuAddr, u8),
}

// Why no number stands where one is to be read.
#[derive(Clone, Copy, Debug, PartialEq, Eq)]
pub enum BadNumber {
    Cut,
    Padded,
    Above,
}

impl From<BadNumber> for Refusal {
    ghost from_gives = { λ _ refusal. refusal ≡ Number };

    fn from(_bad: BadNumber) -> Refusal {
        Refusal::Number
    }
}

// What stands where a number is to be read: a number and the place after it.
pub type Numeral = Result<(u32, usize), BadNumber>;

// What stands at a place of a trace: a record and the place after it, nothing more, or what cannot be read.
pub type Found = Result<Option<(Call, usize)>, Refusal>;

// The kind byte of a call's record.
pub fn kind_of(call: Call) -> u8
    ensures { result ≡ kind_of call }
{
    match call {
        Call::Clock => 0,
        Call::CpuRead(_) => 1,
        Call::CpuWrite(_, _) => 2,
        Call::PpuRegister(_, _) => 3,
        Call::PpuFetch(_) => 4,
        Call::Reset => 5,
        Call::PpuWrite(_, _) => 6,
    }
}

// Refusal 11 is for a trace of more bytes than this.
pub const LONGEST: usize = 8192;

pub fn too_long(len: usize) -> bool
    ensures { result ≡ too_long len }
{
    LONGEST < len
}

// No code: its contract holds what is promised of reading beyond what each function says, and what 01's cartridge holds, so that a proof that
// goes missing fails the check.
pub fn promises()
    ensures { Reading × CartridgeBytes }
{}

// No code: its contract holds the worked cases.
pub fn examples()
    ensures { Examples }
{}
