// Windows: which page of a buffer stands at each place of a window. 01, module 2, at 8,192 bytes for PRG and at one page for CHR.
ghost use Rattle.std.specs.Prelude.{◌≡◌, ◌+◌, ◌*◌, ◌/◌, ◌%◌, ◌<◌, ◌≤◌};
ghost use Rattle.memory.specs.Windows.{banks, page_start, prg_window, chr_window};
ghost use Rattle.memory.specs.ForCode.{following};

use crate::{PageWord, Src, page_words};

// How many banks of a window's size a buffer has: one at least.
fn banks_of(len: u32, size: u32) -> u32
    requires { 1 ≤ size }
    ensures { result ≡ banks len size }
{
    (len / size).max(1)
}

// Where a window's first page starts. One remainder: the start lies in the buffer, so taking it modulo the length changes nothing.
#[tactic(auto, using(crate::proofs::WindowLaws::first_page))]
fn first_start(len: u32, size: u32, bank: u32) -> u32
    requires { (1 ≤ size) × (1 ≤ len) }
    ensures { result ≡ page_start len size bank 0 }
{
    (bank % banks_of(len, size)) * size
}

// Where the page after a page starts. That a length is whole pages is asked of the number: a type for it would ask more of `prg_window`'s callers.
fn next_start(len: u32, at: u32) -> u32
    requires { (len % 1024 ≡ 0) × (at < len) }
    ensures { result ≡ following len at }
{
    if at + 1024 < len {
        at + 1024
    } else {
        at + 1024 - len
    }
}

// The eight pages of a PRG window. The first page's start is computed, and each page after it follows the page before, wrapped.
#[tactic(auto, using(crate::proofs::WindowLaws::start_below, crate::proofs::WindowLaws::next_page, std::proofs::lemmas::Grind::common_steps), unfolding(crate::specs::PageWords::word_number, crate::specs::Windows::window_page))]
pub fn prg_window(src: Src, len: u32, bank: u32, writable: bool) -> [PageWord; 8]
    requires { len % 1024 ≡ 0 }
    ensures { result ≡ prg_window src len bank writable }
{
    let mut pages = [PageWord(0); 8];
    if len == 0 {
        return pages;
    }
    let mut at = first_start(len, 8192, bank);
    for page in &mut pages {
        *page = page_words::word_of(src, at / 1024, writable);
        at = next_start(len, at);
    }
    pages
}

// The one page of a CHR window.
#[tactic(auto, unfolding(crate::specs::PageWords::word_number, crate::specs::Windows::window_page))]
pub fn chr_window(src: Src, len: u32, number: u32, writable: bool) -> PageWord
    ensures { result ≡ chr_window src len number writable }
{
    if len == 0 {
        return PageWord(0);
    }
    let at = first_start(len, 1024, number);
    page_words::word_of(src, at / 1024, writable)
}
