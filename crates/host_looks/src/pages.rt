// What the page tables hold: an entry, and the bytes that a page shows, copied out.
#![tactic(auto, unfolding(crate::specs::Pages::entry_on, crate::specs::Pages::copied, crate::specs::Pages::copy_on))]

ghost use Rattle.std.specs.Prelude.{◌≡◌};
ghost use Rattle.memory.specs.Bytes.{mem_of};
ghost use Rattle.memory.specs.Tests.{pick};
ghost use Rattle.memory.specs.PageWords.{page_of};
ghost use Rattle.state.specs.declared.State.{State};
ghost use Rattle.state.specs.Ranges.{in_range};
ghost use Rattle.cpu.specs.Writes.{prg_word_at};
ghost use Rattle.board_ppu.specs.Peeks.{chr_word_at};
ghost use Rattle.views.specs.Views.{cpu_view, ppu_view};
ghost use Rattle.host_state.specs.Words.{state_of};
ghost use Rattle.host_looks.specs.Pages.{within_buffer, entry_number, no_entry, entry_on, copied, copied_of, copy_on};

use host_state::{gate, tables, whole_state};
use memory::{CpuAddr, Page, PageWord, PpuAddr};

// The entry of words that stand for no state in range: `!` in the buffer's place, and 5.
const NO_ENTRY: u32 = 65536 * b'!' as u32 + 5;

// A page's number in its buffer, with a mark where it takes writes.
fn within(index: u32, writable: bool) -> u16
    ensures { result ≡ within_buffer index writable }
{
    let at = (index % 1024) as u16;
    if writable { at + 32768 } else { at }
}

// A page as one number: its buffer, which counts from 0 in the order of `Src`, whether it takes writes, its place in the buffer.
fn entry_number(page: Page) -> u32
    ensures { result ≡ entry_number page }
{
    65536 * (page.src as u32) + u32::from(within(page.index, page.writable))
}

// A page word's entry.
fn entry(words: &[u16; 144], word: PageWord) -> u32
    ensures { result ≡ pick (in_range (state_of words.now)) (entry_number (page_of word)) no_entry }
{
    if gate::in_range(words) {
        entry_number(memory::page_words::page_of(word))
    } else {
        NO_ENTRY
    }
}

// The PRG table's entry at a CPU address.
pub fn mmc5_cpu_entry(words: &[u16; 144], addr: u16) -> u32
    ensures { result ≡ entry_on words.now (λ (s : State). page_of (prg_word_at s.prg_pages addr)) }
{
    entry(words, tables::prg_word(words, CpuAddr(addr)))
}

// The CHR table's entry at a PPU address.
pub fn mmc5_ppu_entry(words: &[u16; 144], addr: u16) -> u32
    ensures { result ≡ entry_on words.now (λ (s : State). page_of (chr_word_at s.chr_pages addr)) }
{
    entry(words, tables::chr_word(words, PpuAddr(addr)))
}

// A page's bytes, copied where there are 1,024 bytes and room for just so many: how many, 0 or 1,024, as C is told. Byte by byte, which the compiler makes
// sixteen: `copy_from_slice` would be a call of `memmove`, and the archive for C would want that name from outside (docs/HOST.md).
fn copy(part: &[u8], out: &mut [u8]) -> u32
    ensures { copied_of result out.new ≡ copied part.now out.old }
{
    if (part.len() != 1024) | (out.len() != 1024) {
        return 0;
    }
    for (i, to) in out.iter_mut().enumerate() {
        *to = part[i];
    }
    1024
}

// The bytes that the page at a CPU address shows of PRG-ROM or of PRG-RAM. The two page copies are two, and no function that takes the view as a closure:
// each is its view between two calls, and a closure would be as long.
pub fn mmc5_cpu_page<'a>(
    words: &[u16; 144],
    prg: &'a [u8],
    chr: &[u8],
    ram: &'a [u8],
    ciram: &[u8],
    exram: &[u8],
    addr: u16,
    out: &mut [u8],
) -> u32
    ensures { copied_of result out.new ≡ copy_on words.now (λ (s : State). cpu_view s (mem_of prg.now chr.now ram.now ciram.now exram.now) addr) out.old }
{
    let s = whole_state::state_of(words);
    let part = views::cpu_view(s, prg, chr, ram, ciram, exram, CpuAddr(addr));
    copy(part, out)
}

// The bytes that the page at a PPU address shows of CHR.
pub fn mmc5_ppu_page(
    words: &[u16; 144],
    prg: &[u8],
    chr: &[u8],
    ram: &[u8],
    ciram: &[u8],
    exram: &[u8],
    addr: u16,
    out: &mut [u8],
) -> u32
    ensures { copied_of result out.new ≡ copy_on words.now (λ (s : State). ppu_view s (mem_of prg.now chr.now ram.now ciram.now exram.now) addr) out.old }
{
    let s = whole_state::state_of(words);
    let part = views::ppu_view(s, prg, chr, ram, ciram, exram, PpuAddr(addr));
    copy(part, out)
}
