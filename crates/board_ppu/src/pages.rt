// The CHR table's pages: the word at an address.
ghost use Rattle.std.specs.Prelude.{◌≡◌};
ghost use Rattle.board_ppu.specs.Peeks.{chr_word_at};

use memory::{PageWord, PpuAddr};

// The page word at a PPU address: pages are taken modulo 16. Apart from the CPU's (`cpu::writes::prg_word_at`): table, address and modulus are others, and
// each is a line.
pub fn chr_word_at(pages: [PageWord; 16], addr: PpuAddr) -> PageWord
    ensures { result ≡ chr_word_at pages addr.0 }
{
    pages[(addr.0 / 1024 % 16) as usize]
}
