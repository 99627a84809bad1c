// Opening a day: "sizes first (participants, issues), then two parallel arrays, codes and terms .. scheduled receipts .. and pair marks".
#![tactic(auto)]

ghost use Rattle.std.specs.Prelude.{◌≡◌, length};
ghost use Rattle.rule.specs.Layout.{book_length, open_of};
ghost use Rattle.reply.specs.Answers.{told};
ghost use Rattle.opening.specs.Opened.{Lengths, marks_written, open_written, open_lengths};

use lists::Rows;
use reply::Refusal;
use sound::limits;

const CODE_CELLS: usize = layout::CODE * layout::MOST_ISSUES;

// The bytes of the codes, a cell for each.
fn widen(codes: &[u8], cells: &mut [u64])
    requires { length cells.old ≡ length codes.now }
    ensures { cells.new ≡ codes.now }
{
    for (i, cell) in cells.iter_mut().enumerate() {
        *cell = u64::from(codes[i]);
    }
}

// What is given to an opening, in arrays of the lengths that the sizes ask for.
#[derive(Drop)]
struct Given<'a> {
    participants: usize,
    issues: usize,
    codes: &'a [u64],
    terms: &'a [u64],
    receipts: &'a [u64],
    pairs: &'a [u64],
    ghost lengths: { Lengths participants issues codes.now terms.now receipts.now pairs.now },
}

// The book stays a slice, as the C interface lends it: each method that writes it asks for its length.
impl<'a> Given<'a> {
    // Yesterday's pair marks, basket by basket.
    fn write_marks(&self, book: &mut [u64])
        requires { length book.old ≡ book_length }
        ensures { book.new ≡ marks_written book.old self.now.participants self.now.pairs.now }
    {
        let square = self.participants * self.participants;
        for k in 0..layout::BASKETS {
            let marks = Rows {
                cells: &self.pairs[square * k..],
                apart: self.participants,
                n: self.participants,
                m: self.participants,
            };
            let at = layout::mark_square(layout::PAIRS, k);
            marks.copy_to(&mut book[at..], layout::MOST_PARTICIPANTS);
        }
    }

    // "Opening sets all but its own data to 0, places beyond the day's sizes too".
    fn write(&self, book: &mut [u64])
        requires { length book.old ≡ book_length }
        ensures { book.new ≡ open_written self.now.participants self.now.issues self.now.codes.now self.now.terms.now self.now.receipts.now self.now.pairs.now }
    {
        book.fill(0);
        book[layout::PARTICIPANTS] = self.participants as u64;
        book[layout::ISSUES] = self.issues as u64;
        let codes = Rows {
            cells: self.codes,
            apart: layout::CODE,
            n: self.issues,
            m: layout::CODE,
        };
        codes.copy_to(&mut book[layout::CODES..], layout::CODE);
        let terms = Rows {
            cells: self.terms,
            apart: layout::TERM,
            n: self.issues,
            m: layout::TERM,
        };
        terms.copy_to(&mut book[layout::TERMS..], layout::TERM);
        let receipts = Rows {
            cells: self.receipts,
            apart: self.issues,
            n: self.participants,
            m: self.issues,
        };
        receipts.copy_to(&mut book[layout::RECEIPTS..], layout::MOST_ISSUES);
        self.write_marks(book);
    }

    // The codes, the terms, the receipts and the pair marks, each over all items.
    fn enter(&self, book: &mut [u64]) -> Result<(), Refusal>
        requires { length book.old ≡ book_length }
        ensures { (told result, book.new) ≡ open_lengths self.now.participants self.now.issues self.now.codes.now self.now.terms.now self.now.receipts.now self.now.pairs.now book.old }
    {
        if !isin::codes_right(self.codes) {
            return Err(Refusal::WrongCode);
        }
        let (issues, _) = self.terms.as_chunks();
        if !ranges::terms_fit(issues) {
            return Err(Refusal::WrongTerm);
        }
        let receipts = Rows {
            cells: self.receipts,
            apart: self.issues,
            n: self.participants,
            m: self.issues,
        };
        if !ranges::rows_at_most(&receipts, limits::RECEIPT) {
            return Err(Refusal::WrongReceiptOrPair);
        }
        let square = self.participants * self.participants;
        if !ranges::pairs_fit(self.pairs, square, self.participants, self.participants) {
            return Err(Refusal::WrongReceiptOrPair);
        }
        self.write(book);
        Ok(())
    }
}

// Opens a day: "sizes first (participants, issues), then two parallel arrays, codes and terms .. Then come scheduled receipts .. and pair
// marks". The book then holds that day; "a refusal returns its number alone; book and lists stay".
pub fn open(
    participants: u64,
    issues: u64,
    codes: &[u8],
    terms: &[u64],
    receipts: &[u64],
    pairs: &[u64],
    book: &mut [u64],
) -> Result<(), Refusal>
    ensures { (told result, book.new) ≡ open_of participants issues codes.now terms.now receipts.now pairs.now book.old }
{
    if !ranges::sizes_fit(participants, issues) {
        return Err(Refusal::WrongSize);
    }
    let n = participants as usize;
    let m = issues as usize;
    if codes.len() != layout::CODE * m {
        return Err(Refusal::WrongSize);
    }
    if terms.len() != layout::TERM * m {
        return Err(Refusal::WrongSize);
    }
    if receipts.len() != n * m {
        return Err(Refusal::WrongSize);
    }
    if pairs.len() != layout::BASKETS * (n * n) {
        return Err(Refusal::WrongSize);
    }
    if book.len() != layout::LENGTH {
        return Err(Refusal::WrongSize);
    }
    let mut cells = [0u64; CODE_CELLS];
    widen(codes, &mut cells[..codes.len()]);
    let given = Given {
        participants: n,
        issues: m,
        codes: &cells[..codes.len()],
        terms,
        receipts,
        pairs,
    };
    given.enter(book)
}
