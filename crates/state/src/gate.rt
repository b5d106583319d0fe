// Refusals 4 and 5: what every call on a state asks first.
ghost use Rattle.std.specs.Prelude.{◌≡◌};
ghost use Rattle.state.specs.Gate.{same_lengths, gate_of};

use crate::{Lengths, State, ranges};
use answers::Refusal;

// The lent lengths are those recorded.
#[tactic(auto, unfolding(crate::specs::Gate::same_lengths))]
pub fn same_lengths(
    z: Lengths,
    prg: usize,
    chr: usize,
    ram: usize,
    ciram: usize,
    exram: usize,
) -> bool
    ensures { result ≡ same_lengths z prg chr ram ciram exram }
{
    (z.prg as usize == prg)
        & ((z.chr as usize == chr)
            & ((z.ram as usize == ram)
                & ((z.ciram as usize == ciram) & (z.exram as usize == exram))))
}

// The lengths of the five lent buffers against the state.
#[tactic(auto, unfolding(crate::specs::Gate::gate_of))]
pub fn passed(
    s: State,
    prg: usize,
    chr: usize,
    ram: usize,
    ciram: usize,
    exram: usize,
) -> Result<(), Refusal>
    ensures { result ≡ gate_of s prg chr ram ciram exram }
{
    let z = s.lengths;
    if !z.loaded {
        return Err(Refusal::State);
    }
    if !same_lengths(z, prg, chr, ram, ciram, exram) {
        return Err(Refusal::Buffers);
    }
    if !ranges::in_range(s) {
        return Err(Refusal::State);
    }
    Ok(())
}
