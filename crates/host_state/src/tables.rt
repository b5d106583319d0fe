// The page tables, in their parts of the words: read, tested and put.
ghost use Rattle.std.specs.Prelude.{◌≡◌, ◌≤◌, ◌/◌, ◌%◌, ltb, length, get_or};
ghost use Rattle.memory.specs.Tables.{prg_table_ok, chr_table_ok};
ghost use Rattle.memory.specs.Tests.{pick};
ghost use Rattle.memory.specs.PageWords.{word};
ghost use Rattle.host_state.specs.Put.{prg_page_words, chr_page_words};
ghost use Rattle.host_state.specs.Words.{pages_of, prg_numbers, chr_numbers};

use memory::{CpuAddr, PageWord, PpuAddr};

// No code: the lengths that the types say, of the bank registers and of the page tables. Today's prover knows them; kept since it is public, and
// `theorems_settles` names it.
pub fn arrays_sized(
    prg_banks: [u8; 5],
    chr_banks: [u8; 16],
    prg: [PageWord; 64],
    chr: [PageWord; 16],
)
    ensures { (length prg_banks ≡ 5) × ((length chr_banks ≡ 16) × ((length prg ≡ 64) × (length chr ≡ 16))) }
{}

// The furthest place of a word in the run that a PRG table may hold, against the number of places. Neither test has a branch, so that the compiler can
// take eight words at once. The bounds stay clauses: a caller hands in the plain lengths of words that are within their limits.
pub fn prg_ok(prg_len: u32, ram_len: u32, words: &[u16; 144]) -> bool
    requires { (prg_len ≤ 1048576) × (ram_len ≤ 65536) }
    ensures { result ≡ prg_table_ok prg_len ram_len (pages_of (prg_numbers words.now)) }
{
    let furthest = words[64..128].iter().fold(0u16, |furthest, n| {
        furthest.max(memory::tables::prg_place(ram_len, PageWord(*n)))
    });
    furthest < memory::tables::prg_places(prg_len, ram_len)
}

pub fn chr_ok(chr_len: u32, chr_writable: bool, words: &[u16; 144]) -> bool
    requires { chr_len ≤ 1048576 }
    ensures { result ≡ chr_table_ok chr_len chr_writable (pages_of (chr_numbers words.now)) }
{
    words[128..144].iter().fold(true, |ok, n| {
        ok & memory::tables::chr_word_ok(chr_len, chr_writable, PageWord(*n))
    })
}

// A page word: at a CPU address, and at a PPU address.
pub fn prg_word(words: &[u16; 144], addr: CpuAddr) -> PageWord
    ensures { result ≡ get_or (pages_of (prg_numbers words.now)) (addr.0 / 1024) (word 0) }
{
    PageWord(words[64 + (addr.0 / 1024) as usize])
}

pub fn chr_word(words: &[u16; 144], addr: PpuAddr) -> PageWord
    ensures { result ≡ get_or (pages_of (chr_numbers words.now)) (addr.0 / 1024 % 16) (word 0) }
{
    PageWord(words[128 + (addr.0 / 1024 % 16) as usize])
}

// The tables whole, read and put.
pub fn prg_table(words: &[u16; 144]) -> [PageWord; 64]
    ensures { result ≡ pages_of (prg_numbers words.now) }
{
    std::array::from_fn(|i| PageWord(words[64 + i]))
}

pub fn chr_table(words: &[u16; 144]) -> [PageWord; 16]
    ensures { result ≡ pages_of (chr_numbers words.now) }
{
    std::array::from_fn(|i| PageWord(words[128 + i]))
}

pub fn put_prg_table(pages: [PageWord; 64], words: &mut [u16; 144])
    ensures { words.new ≡ prg_page_words words.old pages }
{
    let numbers: [u16; 64] = std::array::from_fn(|i| pages[i].0);
    words[64..128].copy_from_slice(&numbers);
}

pub fn put_chr_table(pages: [PageWord; 16], words: &mut [u16; 144])
    ensures { words.new ≡ chr_page_words words.old pages }
{
    let numbers: [u16; 16] = std::array::from_fn(|i| pages[i].0);
    words[128..144].copy_from_slice(&numbers);
}
