// Page words: made from a page and taken apart again, and the place that a word and an offset in its page name.
// Nothing above this crate looks at a word's digits: specs/PageWords.antt says which word names which page, and proofs/WordLaws.antt
// that taking apart undoes making.
ghost use Rattle.std.specs.Prelude.{◌≡◌};
ghost use Rattle.memory.specs.PageWords.{page, word_of, page_of};
ghost use Rattle.memory.specs.Bytes.{place_of};

use crate::{Page, PageWord, Place, Src};

// The words in a row. What a PRG table may show is one run around blank, PRG-RAM counting down from the top; what a CHR table may
// show beside blank and ExRAM is one run around CIRAM. So a table's range is tested by comparing each word with the runs' ends.
//
//                0   1  2    3 ..         .. 2050   2051 ..   2055 ..               .. 65535
//            +-------+-------+----------------------+---------+---------------------+
//            | blank | ExRAM | PRG-ROM ..    .. CHR | CIRAM   | CHR ..   .. PRG-RAM |
//            +-------+-------+----------------------+---------+---------------------+
//                                          writable             unwritable
#[tactic(auto, using(crate::proofs::WordLaws::bit_is), unfolding(crate::specs::PageWords::word_number))]
pub fn word_of(src: Src, index: u32, writable: bool) -> PageWord
    ensures { result ≡ word_of (page src index writable) }
{
    let w = writable as u16;
    match src {
        Src::Blank => PageWord(0),
        Src::PrgRom => PageWord(3 + (index % 1024) as u16),
        Src::PrgRam => PageWord(65535 - (2 * (index % 64) as u16 + w)),
        Src::Chr if writable => PageWord(2050 - (index % 1024) as u16),
        Src::Chr => PageWord(2055 + (index % 1024) as u16),
        Src::CiRam => PageWord(2051 + 2 * (index % 2) as u16 + w),
        Src::ExRam => PageWord(1 + w),
    }
}

// CHR and CIRAM, which most fetches show, are asked first. A `match` of ranges was tried: it is compiled to ask from the lowest run on, which
// costs CHR six tests for two.
#[tactic(auto, unfolding(crate::specs::PageWords::page_of))]
pub fn page_of(word: PageWord) -> Page
    ensures { result ≡ page_of word }
{
    let n = word.0;
    if 2054 < n {
        if n < 65408 {
            return Page {
                src: Src::Chr,
                index: (n - 2055) as u32,
                writable: false,
            };
        }
        return Page {
            src: Src::PrgRam,
            index: ((65535 - n) / 2) as u32,
            writable: (65535 - n) % 2 == 1,
        };
    }
    if 2050 < n {
        return Page {
            src: Src::CiRam,
            index: ((n - 2051) / 2) as u32,
            writable: (n - 2051) % 2 == 1,
        };
    }
    if 1026 < n {
        return Page {
            src: Src::Chr,
            index: (2050 - n) as u32,
            writable: true,
        };
    }
    if 2 < n {
        return Page {
            src: Src::PrgRom,
            index: (n - 3) as u32,
            writable: false,
        };
    }
    if 0 < n {
        return Page {
            src: Src::ExRam,
            index: 0,
            writable: n == 2,
        };
    }
    Page {
        src: Src::Blank,
        index: 0,
        writable: false,
    }
}

// The byte at an offset within the page that a word names.
pub fn place_of(word: PageWord, offset: u16) -> Place
    ensures { result ≡ place_of (page_of word) offset }
{
    let page = page_of(word);
    Place {
        src: page.src,
        offset: page.index as usize * 1024 + (offset % 1024) as usize,
    }
}
