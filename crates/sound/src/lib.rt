// When a book is sound, for a slice of any length and content, and the limits of its numbers. No place beyond the day's sizes is read.
#![tactic(auto)]

ghost use Rattle.std.specs.Prelude.{◌≡◌, ◌+◌, ◌*◌, ◌<◌, ◌≤◌, nat_le, slice_index, slice_index_or};
ghost use Rattle.lists.specs.Parts.{grid};
ghost use Rattle.rule.specs.Day.{baskets};
ghost use Rattle.rule.specs.Sound.{position_limit, all_terms_fit, at_most, pairs_fit, tradable as tradable_of};
ghost use Rattle.rule.specs.Layout.{participants_at, issues_at, most_issues, lots_size, square, book_length, position_row, cube, sound_book};
ghost use Rattle.ranges.specs.Ranges.{all_pass};
ghost use Rattle.layout.specs.InBook.{book_terms, book_marks};
ghost use Rattle.sound.specs.Sized.{Sized, is_within, while_runs, basket_fits, positions_fit, tally_fits, codes_fit, given_fits, state_fits};

pub mod limits;

use lists::Rows;

// Both sides at most the limit. The cell is moved up by the limit, so that one test serves for both.
pub fn is_within(cell: u64, limit: u64) -> bool
    requires { limit ≤ position_limit }
    ensures { result ≡ is_within limit cell }
{
    cell.wrapping_add(limit) <= 2 * limit
}

// "after three runs positions and notices are zero"
fn while_runs(runs: u64, limit: u64) -> u64
    ensures { result ≡ while_runs runs limit }
{
    if runs < 3 { limit } else { 0 }
}

// Whether the basket has an unmarked issue.
pub fn tradable(book: &[u64], basket: usize) -> bool
    requires { Sized book.now }
    ensures { result ≡ tradable_of basket (book_terms book.now) (book_marks book.now) }
{
    let issues = book[layout::ISSUES] as usize;
    let kinds = baskets::kinds_of(basket as u64);
    layout::terms(book, issues)
        .iter()
        .any(|issue| baskets::is_eligible(issue, &kinds))
}

// A limit of signed cells, in yen or in lots.
#[derive(Clone, Copy, Drop)]
struct Limit {
    most: u64,
    ghost small: { most ≤ position_limit },
}

impl Limit {
    // The highest bit is set exactly where one side is above the limit.
    fn beyond(self, cell: u64) -> u64
        ensures { nat_le result 9223372036854775807 ≡ is_within self.most cell }
    {
        ranges::above(cell.wrapping_add(self.most), 2 * self.most)
    }

    fn holds_for(self, cells: &[u64]) -> bool
        ensures { result ≡ all_pass (is_within self.most) cells.now }
    {
        ranges::joined(cells, |cell| self.beyond(cell)) <= ranges::LOW_BITS
    }
}

// A book of its length whose day's sizes are in range.
#[derive(Drop)]
struct Book<'a> {
    cells: &'a [u64],
    participants: usize,
    issues: usize,
    ghost sized: { Sized cells.now },
    ghost participants_are: { participants ≡ slice_index_or cells.now participants_at 0 },
    ghost issues_are: { issues ≡ slice_index_or cells.now issues_at 0 },
}

impl<'a> Book<'a> {
    // "Codes rise strictly", each with its check digit.
    fn codes_fit(&self) -> bool
        ensures { result ≡ codes_fit self.now.cells.now }
    {
        isin::codes_right(layout::codes(self.cells, self.issues))
    }

    fn terms_fit(&self) -> bool
        ensures { result ≡ all_terms_fit self.now.issues (book_terms self.now.cells.now) (book_marks self.now.cells.now) }
    {
        ranges::terms_fit(layout::terms(self.cells, self.issues))
    }

    // Rows of lots, one for each participant.
    fn lots_at_most(&self, at: usize, bound: u64) -> bool
        requires there { at + lots_size ≤ book_length }
        requires small { bound ≤ 9223372036854775807 }
        ensures { result ≡ at_most bound self.now.participants self.now.issues (grid self.now.cells.now at most_issues self.now.participants self.now.issues) }
    {
        let lots = Rows {
            cells: layout::lots_rows(self.cells, at, self.participants),
            apart: layout::MOST_ISSUES,
            n: self.participants,
            m: self.issues,
        };
        ranges::rows_at_most(&lots, bound)
    }

    // Inlined, since the compiler then knows how few participants there are.
    #[inline(always)]
    fn pairs_fit(&self, at: usize) -> bool
        requires { at + square * baskets ≤ book_length }
        ensures { result ≡ pairs_fit self.now.participants (cube self.now.cells.now at self.now.participants) }
    {
        ranges::pairs_fit(
            layout::squares(self.cells, at),
            layout::SQUARE,
            layout::MOST_PARTICIPANTS,
            self.participants,
        )
    }

    // What opening brought: "all opening ranges, codes .. hold".
    fn given_fits(&self) -> bool
        ensures { result ≡ given_fits self.now.cells.now }
    {
        self.codes_fit()
            && self.terms_fit()
            && self.lots_at_most(layout::RECEIPTS, limits::RECEIPT)
            && self.pairs_fit(layout::PAIRS)
    }

    // "positions are within 10^13 and sum to zero per basket, a basket with a position has an unmarked issue": one basket.
    fn basket_fits(&self, basket: usize, limit: Limit) -> bool
        requires { basket < baskets }
        ensures { result ≡ basket_fits self.now.cells.now limit.most (slice_index self.now.cells.now participants_at) basket (position_row basket) }
    {
        let mut owed = 0;
        let mut due = 0;
        for cell in layout::positions(self.cells, basket, self.participants) {
            if !is_within(*cell, limit.most) {
                return false;
            }
            owed += signed::owed_of(*cell);
            due += signed::due_of(*cell);
        }
        owed == due && (owed == 0 || tradable(self.cells, basket))
    }

    fn positions_fit(&self, limit: Limit) -> bool
        ensures { result ≡ positions_fit self.now.cells.now limit.most }
    {
        (0..layout::BASKETS).all(|basket| self.basket_fits(basket, limit))
    }

    // "a tally is within 10^11 × runs done"
    fn tally_fits(&self, limit: Limit) -> bool
        ensures { result ≡ tally_fits self.now.cells.now limit.most }
    {
        layout::lots_rows(self.cells, layout::TALLY, self.participants)
            .chunks_exact(layout::MOST_ISSUES)
            .all(|row| limit.holds_for(&row[..self.issues]))
    }

    // What the other calls change.
    fn state_fits(&self) -> bool
        ensures { result ≡ state_fits self.now.cells.now }
    {
        let runs = self.cells[layout::RUNS];
        if runs > 3 || self.cells[layout::TRADES] > limits::TRADES {
            return false;
        }
        let lots = while_runs(runs, limits::NOTICE);
        let yen = Limit {
            most: while_runs(runs, limits::POSITION),
        };
        let tally = Limit {
            most: limits::TALLY * runs,
        };
        self.lots_at_most(layout::NOTICES, lots)
            && self.positions_fit(yen)
            && self.tally_fits(tally)
            && self.pairs_fit(layout::TODAY)
    }
}

// Trade, notice, close and run each ask one function of theirs for a sound book, by a fact. A type for it would be no plainer: the call then
// writes the cells that it was lent, and a struct of them would have to keep the fact through each write.
pub fn is_sound(book: &[u64]) -> bool
    ensures { result ≡ sound_book book.now }
{
    if book.len() != layout::LENGTH
        || !ranges::sizes_fit(book[layout::PARTICIPANTS], book[layout::ISSUES])
    {
        return false;
    }
    let book = Book {
        cells: book,
        participants: book[layout::PARTICIPANTS] as usize,
        issues: book[layout::ISSUES] as usize,
    };
    book.given_fits() && book.state_fits()
}
