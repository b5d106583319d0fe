// Replay for a host in C or Rust: a whole trace in one call, over words and bytes that the host lends and keeps. A library of its own, so that the
// board's large functions have one caller in it and are compiled into the loop. docs/HOST.md has the boundary for a reader.
#![tactic(auto)]

ghost use Rattle.std.specs.Prelude.{◌≡◌, ◌≤◌};
ghost use Rattle.memory.specs.Bytes.{mem_of};
ghost use Rattle.host_replay.specs.Promise.{ReplayPromised};
ghost use Rattle.host_replay.specs.Replays.{ending_number, last_of, left_replay, replay_on};

use answers::Refusal;
use host_state::{gate, whole_state};
use player::{Ending, Stopped};

// The count, or the refusal's number times 65,536 and the place.
fn ending_number(ending: Ending) -> u32
    requires { last_of ending ≤ 8192 }
    ensures { result ≡ ending_number ending }
{
    match ending {
        Ok(count) => count as u32,
        Err(Stopped { place, refusal }) => {
            65536 * answers::number_of(refusal) as u32 + place as u32
        }
    }
}

// Plays a trace, and logs each answer.
pub fn mmc5_replay(
    words: &mut [u16; 144],
    prg: &[u8],
    chr: &mut [u8],
    ram: &mut [u8],
    ciram: &mut [u8],
    exram: &mut [u8],
    trace: &[u8],
    log: &mut [u8],
) -> u32
    ensures { left_replay result words.new (mem_of prg.now chr.new ram.new ciram.new exram.new) log.new
        ≡ replay_on words.old trace.now (mem_of prg.now chr.old ram.old ciram.old exram.old) log.old }
{
    if trace::too_long(trace.len()) {
        return ending_number(Err(Stopped {
            place: 0,
            refusal: Refusal::Length,
        }));
    }
    let gate = gate::passed(
        words,
        prg.len(),
        chr.len(),
        ram.len(),
        ciram.len(),
        exram.len(),
    );
    if let Err(refusal) = gate {
        return ending_number(Err(Stopped { place: 0, refusal }));
    }
    let s = whole_state::state_of(words);
    let o = player::replay(s, trace, prg, chr, ram, ciram, exram, log);
    let ending = o.ending;
    let t = o.state;
    whole_state::put_state(t, words);
    ending_number(ending)
}

// No code: its contract holds that the number can be taken apart, and that a replay refused at place 0 changes nothing.
pub fn promises()
    ensures { ReplayPromised }
{}
