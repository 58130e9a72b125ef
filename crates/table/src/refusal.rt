// The refusals of document 01, a case for each number. A case holds its place where the number alone does not fix it.

ghost use Rattle.std.specs.Prelude.{◌≡◌};
ghost use Rattle.table.specs.Refusals.{number_of, place_of};

use std::fmt;

#[derive(Clone, Copy)]
pub enum Refusal {
    // 1: the file has more than 8,192 bytes.
    FileTooLong,
    // 2: this line isn't of the form and key due.
    NotTheLineDue(u64),
    // 3: the value of this line is outside its range.
    OutOfRange(u64),
    // 4: this `steps` line brings the rows above 128.
    TooManyRows(u64),
    // 5: the table isn't a plan by the ranges.
    NotAPlan,
    // 6: this row, the lowest such, has no busy length up to 10,000,000.
    NoBusyLength(u64),
    // 7: a lent list or the output is too short; so many entries or bytes are needed.
    TooShort(u64),
    // 8: there is no task of this number.
    NoSuchTask(u64),
    // 9: the arrival comes too soon; this is the first clock allowed.
    TooSoon(u64),
    // 10: the done list isn't one byte a processor; there are so many processors.
    WrongDoneLength(u64),
    // 11: the done byte of this processor, the lowest such, is above 1, or 1 where nothing runs.
    WrongDoneByte(u64),
    // 12: on this processor, the lowest such, the running instance has one tick of its time left and done is 0.
    TimeUsedUp(u64),
    // 13: the clock is at its end.
    ClockAtEnd,
    // 14: the state doesn't fit the plan.
    StateDoesNotFit,
}

impl Refusal {
    // The refusal's number.
    // By hand: the numbers are document 01's, as `number_of` lists them, which no derive gives.
    pub fn number(self) -> u64
        ensures { result ≡ number_of self }
    {
        match self {
            Refusal::FileTooLong => 1,
            Refusal::NotTheLineDue(_) => 2,
            Refusal::OutOfRange(_) => 3,
            Refusal::TooManyRows(_) => 4,
            Refusal::NotAPlan => 5,
            Refusal::NoBusyLength(_) => 6,
            Refusal::TooShort(_) => 7,
            Refusal::NoSuchTask(_) => 8,
            Refusal::TooSoon(_) => 9,
            Refusal::WrongDoneLength(_) => 10,
            Refusal::WrongDoneByte(_) => 11,
            Refusal::TimeUsedUp(_) => 12,
            Refusal::ClockAtEnd => 13,
            Refusal::StateDoesNotFit => 14,
        }
    }

    // The refusal's place.
    // By hand: the places are document 01's, as `place_of` lists them, which no derive gives.
    pub fn place(self) -> u64
        ensures { result ≡ place_of self }
    {
        match self {
            Refusal::FileTooLong | Refusal::NotAPlan | Refusal::StateDoesNotFit => 0,
            Refusal::NotTheLineDue(line) | Refusal::OutOfRange(line) | Refusal::TooManyRows(line) =>
                line,
            Refusal::NoBusyLength(row) => row,
            Refusal::TooShort(needed) => needed,
            Refusal::NoSuchTask(given) => given,
            Refusal::TooSoon(allowed) => allowed,
            Refusal::WrongDoneLength(processors) => processors,
            Refusal::WrongDoneByte(processor) | Refusal::TimeUsedUp(processor) => processor,
            Refusal::ClockAtEnd => 1000000000000,
        }
    }
}

// As one line of a log: `refused=6 at=2`.
impl fmt::Display for Refusal {
    ghost use Rattle.std.specs.Prelude.{Some};
    ghost use Rattle.table.specs.Refusals.{refusal_line};

    ghost output = { λ r. Some (refusal_line r) };

    fn fmt<W: fmt::Write>(&self, f: &mut fmt::Formatter<W>) -> fmt::Result {
        let number = self.number();
        let place = self.place();
        write!(f, "refused={number} at={place}")
    }
}
