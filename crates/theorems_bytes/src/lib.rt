// Bytes end to end: what the CPU reads and the PPU fetches after a register is written, in registers, addresses and bytes. No code runs here; each
// function holds a theorem to the crate.
#![tactic(auto)]

ghost use Rattle.theorems_bytes.specs.Chr.{ChrBytes};
ghost use Rattle.theorems_bytes.specs.ExRam.{ExRamBytes, ResetMapsNothing};
ghost use Rattle.theorems_bytes.specs.Names.{NameBytes, ServedBytes};
ghost use Rattle.theorems_bytes.specs.Prg.{PrgBytes};

// PRG windows.
pub fn prg_bytes()
    ensures { PrgBytes }
{}

// Pattern pages.
pub fn chr_bytes()
    ensures { ChrBytes }
{}

// Nametables, and what is served in the page's place.
pub fn name_bytes()
    ensures { NameBytes × ServedBytes }
{}

// ExRAM from the CPU, and reset.
pub fn exram_bytes()
    ensures { ExRamBytes × ResetMapsNothing }
{}
