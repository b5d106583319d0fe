// The clock, over the part of the detector that it looks at and changes: reading, idle count, in frame and previous address.
// 01, "What must change shape": "The clock is also offered over a lent clock record, altered there".
ghost use Rattle.std.specs.Prelude.{◌≡◌, ◌≤◌};
ghost use Rattle.scanline.specs.Clock.{record_of, broken_record, tick, clock_outcome};

use crate::Detector;
use answers::{Answer, Refusal};
use memory::PpuAddr;

// A flag with the address beside it, as in `Detector`, whose words `of` reads: 01, "The form each place takes", names the record's fields.
#[derive(Clone, Copy, Debug, PartialEq, Eq)]
pub struct ClockRecord {
    pub reading: bool,
    pub idle_count: u8,
    pub in_frame: bool,
    pub prev_some: bool,
    pub prev_addr: PpuAddr,
}

// What one clock over a record answers, and the record after it.
#[derive(Clone, Copy, Debug, PartialEq, Eq)]
pub struct ClockOutcome {
    pub answer: Answer,
    pub record: ClockRecord,
}

pub fn of(d: Detector) -> ClockRecord
    ensures { result ≡ record_of d }
{
    ClockRecord {
        reading: d.reading,
        idle_count: d.idle_count,
        in_frame: d.in_frame,
        prev_some: d.prev_some,
        prev_addr: d.prev_addr,
    }
}

// A break: the next fetch has none before it, and the board is out of frame.
pub(crate) fn broken(r: ClockRecord) -> ClockRecord
    ensures { result ≡ broken_record r }
{
    ClockRecord {
        in_frame: false,
        prev_some: false,
        ..r
    }
}

// One clock. The address of a previous fetch that is no more stays as it was: nothing reads it.
#[tactic(auto, unfolding(crate::specs::Clock::tick))]
pub fn ticked(r: ClockRecord) -> ClockRecord
    requires { r.idle_count ≤ 2 }
    ensures { result ≡ tick r }
{
    if r.reading {
        return ClockRecord {
            reading: false,
            idle_count: 0,
            ..r
        };
    }
    if r.idle_count < 2 {
        return ClockRecord {
            idle_count: r.idle_count + 1,
            ..r
        };
    }
    broken(ClockRecord { idle_count: 0, ..r })
}

// One clock over a record from anywhere: it is refused where the idle count breaks its range.
pub fn clock_record(r: ClockRecord) -> ClockOutcome
    ensures { result ≡ clock_outcome r }
{
    if r.idle_count > 2 {
        return ClockOutcome {
            answer: Answer::Refused(Refusal::State),
            record: r,
        };
    }
    ClockOutcome {
        answer: Answer::Nothing,
        record: ticked(r),
    }
}

// The same over a record that is lent, altered there.
pub fn clock_lent(r: &mut ClockRecord) -> Answer
    ensures { (result ≡ (clock_outcome r.old).answer) × (r.new ≡ (clock_outcome r.old).«record») }
{
    let outcome = clock_record(*r);
    *r = outcome.record;
    outcome.answer
}
