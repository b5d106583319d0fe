// Replay: a whole trace played over a board. 01, "Trace" and module 11. `plays` has the loop; specs/Replay.antt says what it comes to.
#![tactic(auto)]

ghost use Rattle.std.specs.Prelude.{◌≡◌, Err};
ghost use Rattle.memory.specs.Bytes.{mem_of};
ghost use Rattle.player.specs.Promise.{Enough};
ghost use Rattle.player.specs.Replay.{left_of, replayed};

use answers::Refusal;
use state::State;

pub mod plays;

// Where a replay stopped, and why.
#[derive(Clone, Copy)]
pub struct Stopped {
    pub place: usize,
    pub refusal: Refusal,
}

// "answers with that record's place, or with the record count"
pub type Ending = Result<usize, Stopped>;

// What a replay gives back.
#[derive(Clone, Copy)]
pub struct Replayed {
    pub ending: Ending,
    pub state: State,
}

// A trace that is refused before its first record.
fn refuse(s: State, refusal: Refusal) -> Replayed
    ensures { result ≡ record { ending = Err (record { place = 0; refusal = refusal }); state = s } }
{
    Replayed {
        ending: Err(Stopped { place: 0, refusal }),
        state: s,
    }
}

// Plays a trace over a board and its buffers, and logs each answer.
pub fn replay(
    s: State,
    trace: &[u8],
    prg: &[u8],
    chr: &mut [u8],
    ram: &mut [u8],
    ciram: &mut [u8],
    exram: &mut [u8],
    log: &mut [u8],
) -> Replayed
    ensures { left_of result (mem_of prg.now chr.new ram.new ciram.new exram.new) log.new
        ≡ replayed s trace.now (mem_of prg.now chr.old ram.old ciram.old exram.old) log.old }
{
    if trace::too_long(trace.len()) {
        return refuse(s, Refusal::Length);
    }
    let gate = state::gate::passed(s, prg.len(), chr.len(), ram.len(), ciram.len(), exram.len());
    if let Err(refusal) = gate {
        return refuse(s, refusal);
    }
    plays::play(s, trace, prg, chr, ram, ciram, exram, log)
}

// No code: its contract holds that a replay reads a trace to its end.
pub fn promises()
    ensures { Enough }
{}
