// PRG banks: the five windows from $6000 on, and ExRAM's page at $5C00. A mode is a number, as the state has it: 01 gives it a range.
ghost use Rattle.std.specs.Prelude.{◌≡◌, ◌%◌, ◌<◌};
ghost use Rattle.banks.specs.Prg.{pair_first, rom, prg_values, prg_value_pages, prg_mapped, exram_page};

use memory::{PageWord, Src};
use registers::Regs;
use state::Lengths;

// Bit 0 cleared.
fn first_of(value: u8) -> u8
    ensures { result ≡ pair_first value }
{
    value / 2 * 2
}

// Bit 7 set.
fn rom_of(value: u8) -> u8
    ensures { result ≡ rom value }
{
    128 + value % 128
}

//              $6000   $8000   $A000   $C000   $E000
//            +-------+-------------------------------+
// P=%00:     | $5113 |           <<$5117>>           |
//            +-------+-------------------------------+
// P=%01:     | $5113 |    <$5115>    |    <$5117>    |
//            +-------+---------------+-------+-------+
// P=%10:     | $5113 |    <$5115>    | $5116 | $5117 |
//            +-------+---------------+-------+-------+
// P=%11:     | $5113 | $5114 | $5115 | $5116 | $5117 |
//            +-------+-------+-------+-------+-------+
//
// The value that each window shows, bit 7 set where it shows ROM.
#[tactic(auto, unfolding(crate::specs::Prg::prg_values))]
fn values(mode: u8, banks: [u8; 5]) -> [u8; 5]
    ensures { result ≡ prg_values mode banks }
{
    let ram = banks[0] % 8;
    let pair = first_of(banks[2]);
    let last = rom_of(banks[4]);
    match mode {
        0 => {
            let all = last / 4 * 4;
            [ram, all, all + 1, all + 2, all + 3]
        }
        1 => {
            let high = first_of(last);
            [ram, pair, pair + 1, high, high + 1]
        }
        2 => [ram, pair, pair + 1, banks[3], last],
        _ => [ram, banks[1], banks[2], banks[3], last],
    }
}

// The eight pages that a value shows.
#[tactic(auto, unfolding(crate::specs::Prg::prg_value_pages))]
fn value_pages(prg_len: u32, ram_len: u32, unlocked: bool, value: u8) -> [PageWord; 8]
    requires { (prg_len % 1024 ≡ 0) × (ram_len % 1024 ≡ 0) }
    ensures { result ≡ prg_value_pages prg_len ram_len unlocked value }
{
    if value >= 128 {
        memory::windows::prg_window(Src::PrgRom, prg_len, (value % 128) as u32, false)
    } else {
        memory::windows::prg_window(Src::PrgRam, ram_len, (value % 8) as u32, unlocked)
    }
}

// The table with the five windows mapped.
#[tactic(auto, using(crate::proofs::PlacedLaws::placed_none, crate::proofs::BankLaws::page_more), unfolding(crate::specs::Prg::prg_mapped))]
pub fn map_prg(
    lengths: Lengths,
    regs: Regs,
    banks: [u8; 5],
    mut pages: [PageWord; 64],
) -> [PageWord; 64]
    requires { (lengths.prg % 1024 ≡ 0) × (lengths.ram % 1024 ≡ 0) }
    ensures { result ≡ prg_mapped lengths.prg lengths.ram regs banks pages }
{
    let unlocked = registers::unlocked(regs);
    for (i, value) in values(regs.prg_mode, banks).iter().enumerate() {
        let at = 24 + 8 * i;
        let words = value_pages(lengths.prg, lengths.ram, unlocked, *value);
        // `copy_from_slice` was tried: a fifth more instructions for the function.
        for (j, word) in words.iter().enumerate() {
            pages[at + j] = *word;
        }
    }
    pages
}

// The page at $5C00.
#[tactic(auto, unfolding(crate::specs::Prg::exram_page, memory::specs::PageWords::word_number))]
pub fn exram_page(mode: u8) -> PageWord
    ensures { result ≡ exram_page mode }
{
    if mode < 2 {
        return PageWord(0);
    }
    memory::page_words::word_of(Src::ExRam, 0, mode == 2)
}
