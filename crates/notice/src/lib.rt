// A notice: "replaces its sender's earlier one for the coming run, unnamed issues counting 0".
#![tactic(auto)]

ghost use Rattle.std.specs.Prelude.{◌≡◌, ◌+◌, ◌*◌, ◌<◌, length, ltb};
ghost use Rattle.std.specs.List.{list_all};
ghost use Rattle.rule.specs.Day.{notice_row};
ghost use Rattle.rule.specs.Calls.{distinct};
ghost use Rattle.rule.specs.Layout.{most_issues, notice_of};
ghost use Rattle.reply.specs.Answers.{told};
ghost use Rattle.rule.proofs.BookLaws.{SoundBook};
ghost use Rattle.notice.specs.Checked.{AllDistinctAsks, WriteRowAsks, WriteAsks, notice_sound, notice_written};

use reply::Refusal;
use sound::limits;

// Does each entry name an issue of the day?
fn all_of_day(named: &[u64], issues: u64) -> bool
    ensures { result ≡ list_all (λ issue. ltb issue issues) named.now }
{
    named.iter().all(|issue| *issue < issues)
}

// Is no issue named twice? Each is marked when it is met.
fn all_distinct(named: &[u64]) -> bool
    requires { AllDistinctAsks most_issues named.now }
    ensures { result ≡ distinct named.now }
{
    let mut met = [false; layout::MOST_ISSUES];
    for issue in named {
        let place = *issue as usize;
        if met[place] {
            return false;
        }
        met[place] = true;
    }
    true
}

// A notice as it is given: an entry is an issue and its lots.
#[derive(Drop)]
struct Notified<'a> {
    participant: u64,
    named: &'a [u64],
    lots: &'a [u64],
}

impl<'a> Notified<'a> {
    // The sender's row: every entry's lots at its issue, 0 elsewhere.
    fn write_row(&self, row: &mut [u64])
        requires { WriteRowAsks (length row.old) self.now.named.now self.now.lots.now }
        ensures { row.new ≡ notice_row (length row.old) self.now.named.now self.now.lots.now }
    {
        row.fill(0);
        for (issue, lots) in self.named.iter().zip(self.lots) {
            row[*issue as usize] = *lots;
        }
    }

    // "only that participant's row of the book is written": it starts in mid-book, and is lent to the writer.
    fn write(&self, book: &mut [u64])
        requires { WriteAsks book.old self.now.participant self.now.named.now self.now.lots.now }
        ensures { book.new ≡ notice_written book.old self.now.participant self.now.named.now self.now.lots.now }
    {
        let issues = book[layout::ISSUES] as usize;
        let at = layout::lots_row(layout::NOTICES, self.participant as usize);
        self.write_row(&mut book[at..at + issues]);
    }

    // In a sound book.
    fn enter(&self, book: &mut [u64]) -> Result<(), Refusal>
        requires { SoundBook book.old }
        ensures { (told result, book.new) ≡ notice_sound book.old self.now.participant self.now.named.now self.now.lots.now }
    {
        if book[layout::RUNS] >= 3 {
            return Err(Refusal::ThreeRunsDone);
        }
        if self.participant >= book[layout::PARTICIPANTS] {
            return Err(Refusal::NotOfDay);
        }
        if self.named.is_empty() {
            return Err(Refusal::WrongEntry);
        }
        if self.named.len() != self.lots.len() {
            return Err(Refusal::WrongEntry);
        }
        if !all_of_day(self.named, book[layout::ISSUES]) {
            return Err(Refusal::WrongEntry);
        }
        if !all_distinct(self.named) {
            return Err(Refusal::WrongEntry);
        }
        if !ranges::row_at_most(self.lots, limits::NOTICE) {
            return Err(Refusal::TooManyLots);
        }
        self.write(book);
        Ok(())
    }
}

// "A notice replaces its sender's earlier one for the coming run, unnamed issues counting 0": parallel issues and lots. A refused one leaves
// the book as it was.
pub fn notice(
    book: &mut [u64],
    participant: u64,
    issues: &[u64],
    lots: &[u64],
) -> Result<(), Refusal>
    ensures { (told result, book.new) ≡ notice_of book.old participant issues.now lots.now }
{
    if !sound::is_sound(book) {
        return Err(Refusal::UnsoundBook);
    }
    let notified = Notified {
        participant,
        named: issues,
        lots,
    };
    notified.enter(book)
}
