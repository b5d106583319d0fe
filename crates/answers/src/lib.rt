// What a call answers, and the refusals: one for each row of 01's table "Refusal numbers", with its number. 8 left the table, and is given to none.
#![tactic(auto)]

ghost use Rattle.std.specs.Prelude.{◌≡◌};
ghost use Rattle.answers.specs.Letters.{letter_of, has_value, value_of};
ghost use Rattle.answers.specs.Numbers.{number_of};
ghost use Rattle.answers.specs.Promise.{Numbered};

#[derive(Clone, Copy, Debug, PartialEq, Eq)]
pub enum Refusal {
    Prg = 1,
    Chr = 2,
    Ram = 3,
    Buffers = 4,
    State = 5,
    Audio = 6,
    Counter = 7,
    Kind = 9,
    Number = 10,
    Length = 11,
}

// 01, "Trace": none, a register's value, a value served in the page's place, a page's byte, or a blank page; or a refusal. One enum and no `Result`,
// since 01 asks for "an enum answer", where `!` is a letter among the others.
#[derive(Clone, Copy, Debug, PartialEq, Eq)]
pub enum Answer {
    Nothing,
    Register(u8),
    Served(u8),
    Page(u8),
    Blank,
    Refused(Refusal),
}

// The number that the customer is told.
pub fn number_of(refusal: Refusal) -> u8
    ensures { result ≡ number_of refusal }
{
    refusal as u8
}

// The letter that an answer is printed as.
pub fn letter_of(answer: Answer) -> u8
    ensures { result ≡ letter_of answer }
{
    match answer {
        Answer::Nothing => b'-',
        Answer::Register(_) => b'R',
        Answer::Served(_) => b'S',
        Answer::Page(_) => b'M',
        Answer::Blank => b'B',
        Answer::Refused(_) => b'!',
    }
}

// Whether a value follows the letter.
pub fn has_value(answer: Answer) -> bool
    ensures { result ≡ has_value answer }
{
    !matches!(answer, Answer::Nothing | Answer::Blank)
}

// The value, a refusal's number; 0 where there is none.
pub fn value_of(answer: Answer) -> u8
    ensures { result ≡ value_of answer }
{
    match answer {
        Answer::Register(val) | Answer::Served(val) | Answer::Page(val) => val,
        Answer::Refused(refusal) => number_of(refusal),
        Answer::Nothing | Answer::Blank => 0,
    }
}

// No code: its contract holds what is promised of refusals, so that a proof that goes missing fails the check.
pub fn promises()
    ensures { Numbered }
{}
