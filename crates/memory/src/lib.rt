// Memory: page words, the places that they name, windows, and bytes read and stored through a page.
// 01, modules 1 and 2; in the Rust, src/memory.rs. What the names mean stands in specs/, a file for each module below.
#![tactic(auto)]

ghost use Rattle.std.specs.Prelude.{◌≡◌};
ghost use Rattle.memory.specs.Bytes.{mem_in, byte_at};
ghost use Rattle.memory.specs.Promise.{Pages};

pub mod bytes;
pub mod page_words;
pub mod tables;
pub mod windows;

// Which buffer a page shows, or none: the Rust's `Src`, with blank beside the five. No `Option` of five: to 01 blank is a page among pages, and
// every definition takes it as one.
#[derive(Clone, Copy, Debug, PartialEq, Eq)]
pub enum Src {
    Blank,
    PrgRom,
    PrgRam,
    Chr,
    CiRam,
    ExRam,
}

// What a page word names: a buffer, the number of a page of 1,024 bytes in it, and whether a write is taken.
#[derive(Clone, Copy, Debug, PartialEq, Eq)]
pub struct Page {
    pub src: Src,
    pub index: u32,
    pub writable: bool,
}

// A byte of a buffer.
#[derive(Clone, Copy, Debug, PartialEq, Eq)]
pub struct Place {
    pub src: Src,
    pub offset: usize,
}

// The five buffers that a call is lent, to read. The board's own calls take them one by one: 01, "a state by value with five lent buffers".
#[derive(Clone, Copy)]
pub struct Lent<'a> {
    pub prg: &'a [u8],
    pub chr: &'a [u8],
    pub ram: &'a [u8],
    pub ciram: &'a [u8],
    pub exram: &'a [u8],
}

impl Lent<'_> {
    // The byte at a place.
    #[tactic(auto, unfolding(crate::specs::Bytes::byte_at))]
    pub fn peek(self, place: Place) -> u8
        ensures { result ≡ byte_at (mem_in self.entry) place.src place.offset }
    {
        let Place { src, offset } = place;
        match src {
            Src::Blank => 0,
            Src::PrgRom => bytes::byte(self.prg, offset),
            Src::PrgRam => bytes::byte(self.ram, offset),
            Src::Chr => bytes::byte(self.chr, offset),
            Src::CiRam => bytes::byte(self.ciram, offset),
            Src::ExRam => bytes::byte(self.exram, offset),
        }
    }
}

// A page table's entry, after the Rust's `Page(u32)`, in 16 bits; a CPU address; a PPU address. Three types, so that none is taken for another:
// the order names the form (docs/order/01-scope.md).
#[derive(Clone, Copy, Debug, PartialEq, Eq)]
pub struct PageWord(pub u16);

#[derive(Clone, Copy, Debug, PartialEq, Eq)]
pub struct CpuAddr(pub u16);

#[derive(Clone, Copy, Debug, PartialEq, Eq)]
pub struct PpuAddr(pub u16);

// No code: its contract holds what is promised of pages, so that a proof that goes missing fails the check.
pub fn promises()
    ensures { Pages }
{}
