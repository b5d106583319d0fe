// Refusals 4 and 5, asked of the lent words where they lie.
ghost use Rattle.std.specs.Prelude.{◌≡◌};
ghost use Rattle.state.specs.Gate.{gate_of};
ghost use Rattle.state.specs.Ranges.{in_range};
ghost use Rattle.host_state.specs.Words.{state_of};

use crate::{limits, read, tables};
use answers::Refusal;

// The words stand for a state in range: none is above its limit, the state is marked loaded, and each page is one that its table may show.
pub fn in_range(words: &[u16; 144]) -> bool
    ensures { result ≡ in_range (state_of words.now) }
{
    if !limits::within_limits(words) {
        return false;
    }
    let z = read::lengths_of(words);
    let prg = tables::prg_ok(z.prg, z.ram, words);
    let chr = tables::chr_ok(z.chr, z.chr_writable, words);
    z.loaded & (prg & chr)
}

// The gate of a call over lent words, and lent buffers of these lengths. Only where it is shut is it asked by which refusal.
pub fn passed(
    words: &[u16; 144],
    prg: usize,
    chr: usize,
    ram: usize,
    ciram: usize,
    exram: usize,
) -> Result<(), Refusal>
    ensures { result ≡ gate_of (state_of words.now) prg chr ram ciram exram }
{
    let z = read::lengths_of(words);
    let same = state::gate::same_lengths(z, prg, chr, ram, ciram, exram);
    let ok = in_range(words);
    if ok & same {
        return Ok(());
    }
    if !z.loaded {
        return Err(Refusal::State);
    }
    if !same {
        return Err(Refusal::Buffers);
    }
    Err(Refusal::State)
}
