// The lines of the program `replay`, written into a lent buffer. 01, "Trace": "One line per record". What stands in the buffer afterwards is in
// specs/: Sheet.antt for bytes put one after another, Digits.antt for decimals, Lines.antt for the lines, Promise.antt for what follows
// from that, Examples.antt for worked cases.
#![tactic(auto)]

ghost use Rattle.text.specs.Promise.{Writing};
ghost use Rattle.text.specs.Examples.{Examples};

pub mod pen;

// No code: its contract holds what is promised of writing beyond what each function says, so that a proof that goes missing fails the check.
pub fn promises()
    ensures { Writing }
{}

// No code: its contract holds the worked cases.
#[tactic(auto, unfolding(crate::specs::Sheet::byte_placed, crate::specs::Sheet::text_written, crate::specs::Digits::before, crate::specs::Lines::line))]
pub fn examples()
    ensures { Examples }
{}
