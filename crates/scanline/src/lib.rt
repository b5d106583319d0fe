// The scanline detector: the run of equal fetches, the line that it makes, the frame, and the interrupt's flag.
// 01, module 7 and "Fetches, runs, breaks"; in the Rust, the middle of `chr_read`, `clock`, `prg_read` and `ppu_write`.
// A group of small values, taken and given back: every PPU fetch and every clock goes through here.
// What the names mean stands in specs/: Steps.antt for the calls, Ranges.antt for what is refused.
#![tactic(auto)]

ghost use Rattle.std.specs.Prelude.{◌≡◌, ◌<◌, ◌≤◌};
ghost use Rattle.scanline.specs.Steps.{detector_at_load, matches_after, line_number, seen_at, clocked, darkened, vector_read, status_read, targeted, enabled_by, status_of, interrupt_up};
ghost use Rattle.scanline.specs.Clock.{with_record};
ghost use Rattle.scanline.specs.Ranges.{detector_ok, line_refused, counter_refused};
ghost use Rattle.scanline.specs.Kept.{RangesKept, SameClock};
ghost use Rattle.scanline.specs.Edges.{Edges};
ghost use Rattle.scanline.specs.Turns.{Turns, FourLooks};

use memory::PpuAddr;
use record::ClockRecord;

pub mod record;
pub mod tiles;

// The fields after the Rust's; `pending` is the flag that $5204 reads. `prev_some` with `prev_addr` is the Rust's `Option<u16>`. They stay two: words 0
// and 1 of the host's state hold both, word 1 keeps its number behind a break, and `WordsAndStates` (crate `host_state`) has words for each state.
#[derive(Clone, Copy, Debug, PartialEq, Eq)]
pub struct Detector {
    pub prev_some: bool,
    pub prev_addr: PpuAddr,
    pub match_count: u8,
    pub reading: bool,
    pub idle_count: u8,
    pub in_frame: bool,
    pub scanline: u16,
    pub pending: bool,
    pub irq_enabled: bool,
    pub irq_scanline: u8,
}

pub fn new() -> Detector
    ensures { result ≡ detector_at_load }
{
    Detector {
        prev_some: false,
        prev_addr: PpuAddr(0),
        match_count: 0,
        reading: false,
        idle_count: 0,
        in_frame: false,
        scanline: 0,
        pending: false,
        irq_enabled: false,
        irq_scanline: 0,
    }
}

// Held at 255, as in the Rust: a long run is no new line.
#[tactic(auto, unfolding(crate::specs::Steps::matches_after, crate::specs::Steps::again))]
fn matched(d: Detector, addr: PpuAddr) -> u8
    ensures { result ≡ matches_after d addr.0 }
{
    if (addr.0 <= 0x2FFF) & d.prev_some & (addr == d.prev_addr) {
        d.match_count.saturating_add(1)
    } else {
        0
    }
}

// The number of a line that comes now.
fn line_number(d: Detector) -> u16
    requires { d.scanline < 65535 }
    ensures { result ≡ line_number d }
{
    if d.in_frame { d.scanline + 1 } else { 0 }
}

// A fetch at $2000-$3EFF. The match count that it leaves is what `tiles::tiles_after` asks for.
#[tactic(auto, unfolding(crate::specs::Steps::seen_at, crate::specs::Steps::is_line, crate::specs::Steps::meets))]
pub fn seen(d: Detector, addr: PpuAddr) -> Detector
    requires { d.scanline < 65535 }
    ensures { result ≡ seen_at d addr.0 }
{
    let n = Detector {
        prev_some: true,
        prev_addr: addr,
        match_count: matched(d, addr),
        reading: true,
        ..d
    };
    if n.match_count != 2 {
        return n;
    }
    let line = line_number(d);
    Detector {
        in_frame: true,
        scanline: line,
        pending: (d.in_frame & (line == d.irq_scanline as u16)) | d.pending,
        ..n
    }
}

// The line counter would pass 65,279. Out of frame it holds what the last frame left, and starts anew.
#[tactic(auto, unfolding(crate::specs::Ranges::line_refused, crate::specs::Steps::is_line))]
fn line_refused(d: Detector, addr: PpuAddr) -> bool
    ensures { result ≡ line_refused d addr.0 }
{
    (matched(d, addr) == 2) & d.in_frame & (d.scanline > 65278)
}

// Refusal 7.
#[tactic(auto, unfolding(crate::specs::Ranges::counter_refused))]
pub fn counter_refused(d: Detector, addr: PpuAddr) -> bool
    ensures { result ≡ counter_refused d addr.0 }
{
    tiles::counted(addr) & line_refused(d, addr)
}

// The detector with what a clock looks at changed.
fn with_record(d: Detector, r: ClockRecord) -> Detector
    ensures { result ≡ with_record d r }
{
    Detector {
        prev_some: r.prev_some,
        prev_addr: r.prev_addr,
        reading: r.reading,
        idle_count: r.idle_count,
        in_frame: r.in_frame,
        ..d
    }
}

// A break: PPU $2001 written with bits 3 and 4 clear. The flag stands.
pub fn darkened(d: Detector) -> Detector
    ensures { result ≡ darkened d }
{
    with_record(d, record::broken(record::of(d)))
}

// The CPU reads $FFFA or $FFFB: a break too, and the flag goes.
pub fn vector_read(d: Detector) -> Detector
    ensures { result ≡ vector_read d }
{
    status_read(darkened(d))
}

// The CPU reads $5204.
pub fn status_read(d: Detector) -> Detector
    ensures { result ≡ status_read d }
{
    Detector {
        pending: false, // in frame stands
        ..d
    }
}

// The CPU writes $5203.
pub fn set_target(d: Detector, val: u8) -> Detector
    ensures { result ≡ targeted d val }
{
    Detector {
        irq_scanline: val,
        ..d
    }
}

// The CPU writes $5204.
pub fn set_enabled(d: Detector, val: u8) -> Detector
    ensures { result ≡ enabled_by d val }
{
    Detector {
        irq_enabled: val >= 0x80,
        ..d
    }
}

// What $5204 reads.
pub fn status(d: Detector) -> u8
    ensures { result ≡ status_of d }
{
    d.pending as u8 * 128 + d.in_frame as u8 * 64
}

// Nothing more is stored for it: the Rust's `regs.irq_pending` is this (crate `theorems_scanlines`).
pub fn interrupt_up(d: Detector) -> bool
    ensures { result ≡ interrupt_up d }
{
    d.pending & d.irq_enabled
}

// What `clock` and `seen` ask for follows from it (`RangesKept`). A test, and no ghost field: a state that breaks it can be handed in (program
// `test_bad_input`), and is refused with 5.
#[tactic(auto, unfolding(crate::specs::Ranges::detector_ok))]
pub fn ranges_ok(d: Detector) -> bool
    ensures { result ≡ detector_ok d }
{
    (d.idle_count <= 2) & (d.scanline <= 65279)
}

// One clock.
pub fn clock(d: Detector) -> Detector
    requires { d.idle_count ≤ 2 }
    ensures { result ≡ clocked d }
{
    with_record(d, record::ticked(record::of(d)))
}

// Ties what specs/Kept.antt, specs/Turns.antt and specs/Edges.antt say to the crate: without their proofs this function is not proved.
pub fn promises()
    ensures { RangesKept × SameClock × Turns × FourLooks × Edges }
{}
