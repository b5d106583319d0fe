// The lines of `replay`, written by the crate `text` and printed. 01, "Trace": "One line per record: record number, kind, answer, interrupt 0 or 1."
use answers::{Answer, Refusal};
use print::print_first;
use state::State;
use std::io;
use text::pen::Pen;

// The letter of an answer, with 128 more where the interrupt is up; a letter that no line has where it cannot be told.
fn first_byte(a: Answer, up: Result<bool, Refusal>) -> u8 {
    let letter = answers::letter_of(a) % 128;
    match up {
        Ok(true) => letter + 128,
        Ok(false) => letter,
        Err(_) => b'?',
    }
}

// What a pen has written from the start of its buffer on.
fn print_pen(rt: &impl Print, pen: Pen<'_>) -> io::Result<()> {
    let Pen { out, at } = pen;
    print_first(rt, out, at)
}

// The line of a call; whether the call was accepted.
pub fn call(rt: &impl Print, number: u32, kind: u8, a: Answer, s: State) -> io::Result<bool> {
    let mut out = [0u8; 32];
    let mut pen = Pen {
        out: &mut out,
        at: 0,
    };
    if let Answer::Refused(why) = a {
        pen.refused_line(number, kind, why);
        print_pen(rt, pen)?;
        return Ok(false);
    }
    let first = first_byte(a, board::state_calls::interrupt_up(s));
    pen.logged_line(number, kind, first, answers::value_of(a));
    print_pen(rt, pen)?;
    Ok(true)
}

// The line of a record that cannot be read.
pub fn unreadable(rt: &impl Print, number: u32, why: Refusal) -> io::Result<()> {
    let mut out = [0u8; 32];
    let mut pen = Pen {
        out: &mut out,
        at: 0,
    };
    pen.unreadable_line(number, why);
    print_pen(rt, pen)
}

pub fn end(rt: &impl Print, count: u32) -> io::Result<()> {
    let mut out = [0u8; 32];
    let mut pen = Pen {
        out: &mut out,
        at: 0,
    };
    pen.end_line(count);
    print_pen(rt, pen)
}

// The line of a refused load.
pub fn load_refused(rt: &impl Print, why: Refusal) -> io::Result<()> {
    println!(rt; "load {}", answers::number_of(why))
}
