// The lengths that load takes.
ghost use Rattle.std.specs.Prelude.{◌≡◌};
ghost use Rattle.state.specs.Lengths.{prg_taken, chr_taken, ram_taken, lengths_ok};

use crate::Lengths;

pub fn prg_taken(prg: usize) -> bool
    ensures { result ≡ prg_taken prg }
{
    (prg % 8192 == 0) & ((8192 <= prg) & (prg <= 1048576))
}

pub fn chr_taken(chr: usize) -> bool
    ensures { result ≡ chr_taken chr }
{
    (chr % 1024 == 0) & (chr <= 1048576)
}

pub fn ram_taken(ram: usize, ciram: usize, exram: usize) -> bool
    ensures { result ≡ ram_taken ram ciram exram }
{
    (ram % 1024 == 0) & ((ram <= 65536) & ((ciram == 2048) & (exram == 1024)))
}

// "recorded lengths pass load"
#[tactic(auto, unfolding(crate::specs::Lengths::lengths_ok))]
pub fn lengths_ok(z: Lengths) -> bool
    ensures { result ≡ lengths_ok z }
{
    let prg = prg_taken(z.prg as usize);
    let chr = chr_taken(z.chr as usize);
    let ram = ram_taken(z.ram as usize, z.ciram as usize, z.exram as usize);
    z.loaded & (prg & (chr & ram))
}
