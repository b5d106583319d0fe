// Prints the pages that windows show, for the comparison with the Rust's: `window length bank: p0 p1 ..`, each page its number in the
// buffer, or `blank`. The file `stdout` is what the Rust's own `map_prg` and `map_chr` gave (oracle/fixed/windows.answers).
#![tactic(auto)]

use memory::page_words::page_of;
use memory::windows::{chr_window, prg_window};
use memory::{PageWord, Src};
use std::io;

const PRG_LENGTHS: [u32; 13] = [
    0, 1024, 2048, 3072, 5120, 7168, 8192, 9216, 16384, 24576, 41984, 65536, 1048576,
];

const CHR_LENGTHS: [u32; 8] = [0, 1024, 2048, 3072, 7168, 8192, 24576, 1048576];

const PRG_BANKS: [u32; 11] = [0, 1, 2, 3, 5, 7, 8, 63, 127, 128, 255];

const CHR_BANKS: [u32; 14] = [0, 1, 2, 3, 5, 7, 8, 63, 127, 128, 255, 1023, 1024, 8191];

fn print_page(rt: &impl Print, word: PageWord) -> io::Result<()> {
    let page = page_of(word);
    match page.src {
        Src::Blank => print!(rt; " blank"),
        _ => print!(rt; " {}", page.index),
    }
}

// The line of a window over a buffer of some length at some bank.
fn print_line(
    rt: &impl Print,
    window: u32,
    len: u32,
    bank: u32,
    pages: &[PageWord],
) -> io::Result<()> {
    print!(rt; "{window} {len} {bank}:")?;
    for word in pages {
        print_page(rt, *word)?;
    }
    println!(rt)
}

fn main(rt: HostRuntime) -> io::Result<()> {
    for len in PRG_LENGTHS {
        let whole = len / 1024 * 1024;
        for bank in PRG_BANKS {
            let pages = prg_window(Src::PrgRom, whole, bank, false);
            print_line(&rt, 8192, len, bank, &pages)?;
        }
    }
    for len in CHR_LENGTHS {
        for bank in CHR_BANKS {
            let page = chr_window(Src::Chr, len, bank, false);
            print_line(&rt, 1024, len, bank, &[page])?;
        }
    }
    Ok(())
}
