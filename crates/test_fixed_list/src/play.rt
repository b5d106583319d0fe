// A trace, played record by record over a board that is loaded first.
use crate::case::{After, Case};
use crate::lent::Lent;
use crate::{counters, lines, peeks};
use answers::Answer;
use state::State;
use std::io;

// Plays the record at a place and prints its line, or the line of the end. From which place and over which state the replay goes on, if it does.
fn played(
    rt: &impl Print,
    trace: &[u8],
    at: usize,
    count: u32,
    s: State,
    lent: &mut Lent<'_>,
) -> io::Result<Option<(usize, State)>> {
    match trace::records::record_at(trace, at) {
        Ok(None) => {
            lines::end(rt, count)?;
            Ok(None)
        }
        Err(why) => {
            lines::unreadable(rt, count, why)?;
            Ok(None)
        }
        Ok(Some((call, next))) => {
            let outcome = lent.call_on(s, call);
            let answer = outcome.answer;
            let after = outcome.state;
            if lines::call(rt, count, trace::kind_of(call), answer, after)? {
                Ok(Some((next, after)))
            } else {
                Ok(None)
            }
        }
    }
}

// The state after the last record that was accepted. A trace of 8,192 bytes has at most as many records, and its end.
fn records(rt: &impl Print, trace: &[u8], loaded: State, lent: &mut Lent<'_>) -> io::Result<State> {
    let mut s = loaded;
    let mut at = 0;
    for count in 0..8193u32 {
        let turn = played(rt, trace, at, count, s, lent)?;
        let Some((next, after)) = turn else {
            break;
        };
        at = next;
        s = after;
    }
    Ok(s)
}

// The board is loaded and the trace played, from the counters that follow it; then the peeks that follow it, over the state that it leaves.
pub fn play(rt: &impl Print, case: Case<'_>, lent: &mut Lent<'_>) -> io::Result<()> {
    let loaded = lent.load(case.settings);
    if let Answer::Refused(why) = loaded.answer {
        return lines::load_refused(rt, why);
    }
    let start = counters::start(case.after, loaded.state);
    let left = records(rt, case.trace, start, lent)?;
    match case.after {
        After::Peeks(peeks) => peeks::each(rt, peeks, left, lent),
        _ => Ok(()),
    }
}
