// What a call answers: why it is refused, and a run's counts. The paper's number for each is in specs/.
#![tactic(auto)]

ghost use Rattle.std.specs.Prelude.{◌≡◌};
ghost use Rattle.reply.specs.Answers.{number_of};

use std::fmt;

// Why a call is refused, with the number that the check table has for it.
#[derive(Clone, Copy, PartialEq, Eq)]
pub enum Refusal {
    WrongSize = 1,
    WrongCode = 2,
    WrongTerm = 3,
    WrongReceiptOrPair = 4,
    UnsoundBook = 5,
    ThreeRunsDone = 6,
    NotOfDay = 7,
    WrongAmount = 8,
    NoUnmarkedIssue = 9,
    PositionTooLarge = 10,
    TooManyTrades = 11,
    WrongEntry = 12,
    TooManyLots = 13,
    WrongDraw = 14,
    ShortList = 15,
    FewerThanThreeRuns = 16,
}

// The check table's number.
impl From<Refusal> for u64 {
    ghost from_gives = { λ why n. n ≡ number_of why };

    fn from(why: Refusal) -> u64 {
        why as u64
    }
}

// The check table's words.
impl fmt::Display for Refusal {
    fn fmt<W: fmt::Write>(&self, f: &mut fmt::Formatter<W>) -> fmt::Result {
        f.write_str(match self {
            Refusal::WrongSize => "a size, an array length or the book's length is wrong",
            Refusal::WrongCode => "a code breaks the rule",
            Refusal::WrongTerm => "a term is outside its range",
            Refusal::WrongReceiptOrPair => {
                "a receipt or pair mark is outside its range, or a pair is of one participant"
            }
            Refusal::UnsoundBook => "unsound book",
            Refusal::ThreeRunsDone => "three runs done",
            Refusal::NotOfDay => "participant or basket not of this day, or seller is buyer",
            Refusal::WrongAmount => "amount 0 or above 10^12 yen",
            Refusal::NoUnmarkedIssue => "the basket has no unmarked issue",
            Refusal::PositionTooLarge => "a position would pass 10^13 yen either way",
            Refusal::TooManyTrades => "10,000 trades accepted already",
            Refusal::WrongEntry => "no entry, two lengths, an issue not of the day, or one twice",
            Refusal::TooManyLots => "lots above 200,000,000",
            Refusal::WrongDraw => "the draw does not name each participant once",
            Refusal::ShortList => "a lent list is short",
            Refusal::FewerThanThreeRuns => "fewer than three runs",
        })
    }
}

// How many matches and lines a run wrote.
#[derive(Clone, Copy)]
pub struct Counts {
    pub matches: usize,
    pub lines: usize,
}
