// A case of a case file: its cartridge, its trace, and what follows the trace. oracle/README.md, "A case in bytes".
ghost use Rattle.std.specs.Prelude.{◌≡◌, ◌<◌, ◌≤◌, length, IfSome};
ghost use Rattle.state.specs.declared.State.{State};
ghost use Rattle.test_fixed_list.specs.Counters.{start_by, start_of};

use board::loads::Settings;
use registers::Mirroring;

// What follows the trace of a case: nothing, its peeks in three bytes each, or its counters.
#[derive(Clone, Copy)]
pub enum After<'a> {
    Nothing,
    Peeks(&'a [[u8; 3]]),
    Counters(&'a [u8; 6]),
}

// The lengths are those of PRG-ROM, CHR and PRG-RAM.
#[derive(Clone, Copy)]
pub struct Case<'a> {
    pub prg: usize,
    pub chr: usize,
    pub ram: usize,
    pub settings: Settings,
    pub seed: u8,
    pub trace: &'a [u8],
    pub after: After<'a>,
}

// What follows the trace, by the first byte of its case, and the bytes after that.
#[tactic(auto, unfolding(crate::specs::Counters::start_by))]
fn after_trace<'a>(kind: u8, rest: &'a [u8]) -> Option<(After<'a>, &'a [u8])>
    ensures { IfSome result (λ a. (length a.1.now ≤ length rest.now)
        × ((s : State) → start_of a.0 s ≡ start_by kind rest.now s)) }
{
    match kind {
        2 => {
            let (count, rest) = rest.split_first()?;
            let (peeks, rest) = rest.split_at_checked(*count as usize * 3)?;
            Some((After::Peeks(peeks.as_chunks().0), rest))
        }
        3 => {
            let (counters, rest) = rest.split_first_chunk::<6>()?;
            Some((After::Counters(counters), rest))
        }
        _ => Some((After::Nothing, rest)),
    }
}

// The first case, and the bytes after it; none where it is cut.
pub fn first_case<'a>(cases: &'a [u8]) -> Option<(Case<'a>, &'a [u8])>
    ensures { IfSome result (λ c. length c.1.now < length cases.now) }
{
    let (head, rest) = cases.split_first_chunk::<11>()?;
    let [
        kind,
        prg_low,
        prg_high,
        chr_low,
        chr_high,
        ram,
        writable,
        mirroring,
        seed,
        low,
        high,
    ] = *head;
    let (trace, rest) = rest.split_at_checked(u16::from_le_bytes([low, high]) as usize)?;
    let (after, rest) = after_trace(kind, rest)?;
    let settings = Settings {
        chr_writable: writable % 2 == 1,
        mirroring: Mirroring::from(u16::from(mirroring)),
    };
    let case = Case {
        prg: u16::from_le_bytes([prg_low, prg_high]) as usize * 8192,
        chr: u16::from_le_bytes([chr_low, chr_high]) as usize * 1024,
        ram: ram as usize * 1024,
        settings,
        seed,
        trace,
        after,
    };
    Some((case, rest))
}
