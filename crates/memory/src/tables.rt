// The two page tables, and whether each of their words is one that the table may hold (01, "STATE ranges"). The most that a length may be stands
// in each contract: callers bring the state's numbers, and a type that keeps the bound would ask more of them.
ghost use Rattle.std.specs.Prelude.{◌≡◌, ◌<◌, ◌≤◌, Bool};
ghost use Rattle.memory.specs.declared.PageWord.{PageWord};
ghost use Rattle.memory.specs.Tests.{all};
ghost use Rattle.memory.specs.PageWords.{page_of};
ghost use Rattle.memory.specs.ForCode.{prg_place, prg_places};
ghost use Rattle.memory.specs.Tables.{prg_may_hold, chr_may_hold, prg_table_ok, chr_table_ok};

use crate::PageWord;

// The words that a PRG table may hold are one run around blank: PRG-RAM below it, ExRAM and PRG-ROM above. A word's place in that run;
// and that the word has 16 bits, which its type says and a caller's proof wants to hear.
pub fn prg_place(ram_len: u32, word: PageWord) -> u16
    requires { ram_len ≤ 65536 }
    ensures { (result ≡ prg_place ram_len word) × (word.0 < 65536) }
{
    let below = 2 * (ram_len / 1024) as u16;
    word.0.wrapping_add(below)
}

// How many words the run has.
pub fn prg_places(prg_len: u32, ram_len: u32) -> u16
    requires { (prg_len ≤ 1048576) × (ram_len ≤ 65536) }
    ensures { result ≡ prg_places prg_len ram_len }
{
    3 + (prg_len / 1024) as u16 + 2 * (ram_len / 1024) as u16
}

#[tactic(auto, using(crate::proofs::TableLaws::prg_run))]
fn prg_word_ok(prg_len: u32, ram_len: u32, word: PageWord) -> bool
    requires { (prg_len ≤ 1048576) × (ram_len ≤ 65536) }
    ensures { result ≡ prg_may_hold prg_len ram_len (page_of word) }
{
    prg_place(ram_len, word) < prg_places(prg_len, ram_len)
}

// Blank and ExRAM, and one run of words around CIRAM: CHR marked writable below it, CHR not so marked above.
#[tactic(auto, unfolding(crate::specs::Tables::chr_may_hold_as, crate::specs::PageWords::page_of))]
pub fn chr_word_ok(chr_len: u32, chr_writable: bool, word: PageWord) -> bool
    requires { chr_len ≤ 1048576 }
    ensures { result ≡ chr_may_hold chr_len chr_writable (page_of word) }
{
    let n = word.0;
    let pages = (chr_len / 1024) as u16;
    let below = if chr_writable { pages } else { 0 };
    (n < 3) | ((2051 - below <= n) & (n < 2055 + pages))
}

// Whether all words of a table pass a test. std's `all` was tried: it branches at each word, where this loop is compiled to test eight at once.
#[tactic(auto, using(crate::proofs::TableLaws::all_more), unfolding(crate::specs::Tests::all))]
fn all_pass<const N: usize, F: Fn(PageWord) -> bool>(pages: [PageWord; N], test: F) -> bool
    requires { F.IsAlwaysCallable test }
    ensures { (says : PageWord → Bool) → ((w : PageWord) (b : Bool) → F.post test w b → b ≡ says w) → result ≡ all says pages.entry }
{
    let mut ok = true;
    for w in pages {
        ok &= test(w);
    }
    ok
}

// All 64 words of a PRG table.
pub fn prg_table_ok(prg_len: u32, ram_len: u32, pages: [PageWord; 64]) -> bool
    requires { (prg_len ≤ 1048576) × (ram_len ≤ 65536) }
    ensures { result ≡ prg_table_ok prg_len ram_len pages }
{
    all_pass(pages, |w| prg_word_ok(prg_len, ram_len, w))
}

// All 16 words of a CHR table.
pub fn chr_table_ok(chr_len: u32, chr_writable: bool, pages: [PageWord; 16]) -> bool
    requires { chr_len ≤ 1048576 }
    ensures { result ≡ chr_table_ok chr_len chr_writable pages }
{
    all_pass(pages, |w| chr_word_ok(chr_len, chr_writable, w))
}
