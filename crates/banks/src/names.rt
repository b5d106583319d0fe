// Nametables: what $5105 puts into the eight pages from $2000 on.
ghost use Rattle.std.specs.Prelude.{◌≡◌, ◌<◌};
ghost use Rattle.banks.specs.Names.{selector, name_page, names_mapped};

use memory::{PageWord, Src};

// $5105's two bits for a nametable.
#[tactic(auto, unfolding(crate::specs::Names::selector))]
pub fn selector_of(nametables: u8, i: u32) -> u8
    ensures { result ≡ selector nametables i }
{
    match i % 4 {
        0 => nametables % 4,
        1 => nametables / 4 % 4,
        2 => nametables / 16 % 4,
        _ => nametables / 64,
    }
}

// The page that a selector, a number of two bits to 01, shows. Fill is served, not mapped.
#[tactic(auto, unfolding(crate::specs::Names::name_page, memory::specs::PageWords::word_number))]
fn name_page(selector: u8, nametable_use: bool) -> PageWord
    ensures { result ≡ name_page selector nametable_use }
{
    match selector {
        0 => memory::page_words::word_of(Src::CiRam, 0, true),
        1 => memory::page_words::word_of(Src::CiRam, 1, true),
        2 if nametable_use => memory::page_words::word_of(Src::ExRam, 0, true),
        _ => PageWord(0),
    }
}

// The table with the eight nametable pages mapped: $3000-$3FFF as $2000-$2FFF.
#[tactic(auto, using(crate::proofs::PlacedLaws::placed_none, crate::proofs::PlacedLaws::placed_more), unfolding(crate::specs::Names::names_mapped))]
pub fn map_names(nametables: u8, nametable_use: bool, mut pages: [PageWord; 16]) -> [PageWord; 16]
    ensures { result ≡ names_mapped nametables nametable_use pages }
{
    for k in 0..8 {
        pages[8 + k as usize] = name_page(selector_of(nametables, k), nametable_use);
    }
    pages
}
