// A pen: a lent buffer, and the place in it where the next byte goes. What it writes moves it on. A byte that finds no room is dropped and the pen
// stays: a pen asks nothing of its buffer or its place.
// 01, "Trace": "One line per record: record number, kind, answer, interrupt 0 or 1." No `write!`: its `{}` has digits of its own, and 01 names the
// form of ours (`decimal`).
ghost use Rattle.std.specs.Prelude.{◌≡◌, ◌+◌, ◌%◌, [], ◌∷◌, ◌++◌};
ghost use Rattle.memory.specs.Tests.{pick};
ghost use Rattle.answers.specs.Numbers.{number_of};
ghost use Rattle.text.specs.Sheet.{written};
ghost use Rattle.text.specs.Digits.{digits};
ghost use Rattle.text.specs.Lines.{line, valued, logged_line, refused_line, unreadable_line, too_long_line, end_line};

use answers::Refusal;

#[derive(Drop)]
pub struct Pen<'a> {
    pub out: &'a mut [u8],
    pub at: usize,
}

// The last digit of a number.
fn last_digit(n: u32) -> u8
    ensures { result ≡ 48 + n % 10 }
{
    b'0' + (n % 10) as u8
}

#[tactic(auto, using(crate::proofs::SheetLaws::then, crate::proofs::SheetLaws::nothing, std::proofs::lemmas::List::append_assoc), unfolding(crate::specs::Lines::line))]
impl Pen<'_> {
    // By index: after `get_mut`, std says the length of the buffer and not its bytes.
    #[tactic(auto, unfolding(crate::specs::Sheet::written, crate::specs::Sheet::text_written, crate::specs::Sheet::byte_placed))]
    pub fn put(&mut self, byte: u8)
        ensures { self.new ≡ written self.old (byte ∷ []) }
    {
        if self.at < self.out.len() {
            self.out[self.at] = byte;
            self.at += 1;
        }
    }

    // 01, "Trace": "Numbers are printed in decimal, most significant digit first." By recursion (01, "The form each place takes").
    #[tactic(auto, using(crate::proofs::SheetLaws::then, crate::proofs::DigitLaws::one_digit, crate::proofs::DigitLaws::more_digits))]
    pub fn decimal(&mut self, n: u32)
        ensures { self.new ≡ written self.old (digits n) }
    {
        if n >= 10 {
            self.decimal(n / 10);
        }
        self.put(last_digit(n));
    }

    // A number and the byte after it.
    pub fn number(&mut self, n: u32, after: u8)
        ensures { self.new ≡ written self.old (digits n ++ (after ∷ [])) }
    {
        self.decimal(n);
        self.put(after);
    }

    // A letter and a space.
    pub fn letter(&mut self, byte: u8)
        ensures { self.new ≡ written self.old (byte ∷ 32 ∷ []) }
    {
        self.put(byte);
        self.put(b' ');
    }

    // The value of an answer and a space, where the answer's letter has one.
    fn value_for(&mut self, letter: u8, value: u8)
        ensures { self.new ≡ written self.old (pick (valued letter) (digits value ++ (32 ∷ [])) []) }
    {
        if matches!(letter, b'R' | b'S' | b'M') {
            self.number(value as u32, b' ');
        }
    }

    // The line of an accepted call, whose answer is told by the two bytes that a log has of it: its letter, with 128 more where the interrupt is up, and its
    // value. Kinds are the numbers that a trace has and a line prints.
    pub fn logged_line(&mut self, number: u32, kind: u8, first: u8, second: u8)
        ensures { self.new ≡ written self.old (logged_line number kind first second) }
    {
        let letter = first % 128;
        self.number(number, b' ');
        self.number(kind as u32, b' ');
        self.letter(letter);
        self.value_for(letter, second);
        self.number((first / 128) as u32, b'\n');
    }

    // A mark and the number of a refusal, which end a line.
    fn refusal(&mut self, mark: u8, why: Refusal)
        ensures { self.new ≡ written self.old (line ((mark ∷ []) ∷ []) (digits (number_of why))) }
    {
        self.letter(mark);
        self.number(answers::number_of(why) as u32, b'\n');
    }

    // The line of a refused call.
    pub fn refused_line(&mut self, number: u32, kind: u8, why: Refusal)
        ensures { self.new ≡ written self.old (refused_line number kind why) }
    {
        self.number(number, b' ');
        self.number(kind as u32, b' ');
        self.refusal(b'!', why);
    }

    // The line of a record that cannot be read.
    pub fn unreadable_line(&mut self, number: u32, why: Refusal)
        ensures { self.new ≡ written self.old (unreadable_line number why) }
    {
        self.number(number, b' ');
        self.refusal(b'?', why);
    }

    // The only line for a trace that is too long.
    pub fn too_long_line(&mut self)
        ensures { self.new ≡ written self.old too_long_line }
    {
        self.refusal(b'?', Refusal::Length);
    }

    // The last line of a trace that was played whole.
    pub fn end_line(&mut self, count: u32)
        ensures { self.new ≡ written self.old (end_line count) }
    {
        self.put(b'e');
        self.put(b'n');
        self.letter(b'd');
        self.number(count, b'\n');
    }
}
