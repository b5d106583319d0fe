// A byte read or stored through a page word, in the five buffers that the caller lends. Blank reads 0 and takes no write, and so
// does a place past a buffer's end: these functions ask nothing of the word. Those that are stored to go one by one, as callers
// are lent them, and the clauses have them as `mem_of`; a read takes all five as `Lent`.
ghost use Rattle.std.specs.Prelude.{◌≡◌, ℕ, List, slice_index, slice_set};
ghost use Rattle.memory.specs.PageWords.{page_of};
ghost use Rattle.memory.specs.Bytes.{mem_of, stored_at, page_stored};

use crate::{PageWord, Place, Src, page_words};

// The byte of a buffer, 0 past its end.
pub fn byte(buffer: &[u8], offset: usize) -> u8
    ensures { result ≡ slice_index buffer.now offset }
{
    buffer.get(offset).copied().unwrap_or(0)
}

// The byte of a buffer stored, nothing past its end. By index: with `get_mut` no proof closes, since std does not say what the slice is after.
pub fn put(buffer: &mut [u8], offset: usize, val: u8)
    ensures { buffer.new ≡ slice_set buffer.old offset val }
{
    if offset < buffer.len() {
        buffer[offset] = val;
    }
}

// The byte at a place stored. PRG-ROM is not lent: nothing writes it. The four stay four parameters, here and where a store is handed on: over a struct
// of `&mut`s each contract would also have to say that it still holds the same four.
#[tactic(auto, unfolding(crate::specs::Bytes::stored_at))]
fn store_at(
    chr: &mut [u8],
    ram: &mut [u8],
    ciram: &mut [u8],
    exram: &mut [u8],
    place: Place,
    val: u8,
)
    ensures { (prg : List ℕ) → mem_of prg chr.new ram.new ciram.new exram.new
        ≡ stored_at (mem_of prg chr.old ram.old ciram.old exram.old) place.src place.offset val }
{
    let Place { src, offset } = place;
    match src {
        Src::Blank | Src::PrgRom => {}
        Src::PrgRam => put(ram, offset, val),
        Src::Chr => put(chr, offset, val),
        Src::CiRam => put(ciram, offset, val),
        Src::ExRam => put(exram, offset, val),
    }
}

// A byte stored through a page word, where the page takes writes.
#[tactic(auto, unfolding(crate::specs::Bytes::page_stored))]
pub fn store(
    chr: &mut [u8],
    ram: &mut [u8],
    ciram: &mut [u8],
    exram: &mut [u8],
    word: PageWord,
    offset: u16,
    val: u8,
)
    ensures { (prg : List ℕ) → mem_of prg chr.new ram.new ciram.new exram.new
        ≡ page_stored (mem_of prg chr.old ram.old ciram.old exram.old) (page_of word) offset val }
{
    if page_words::page_of(word).writable {
        let place = page_words::place_of(word, offset);
        store_at(chr, ram, ciram, exram, place, val);
    }
}
