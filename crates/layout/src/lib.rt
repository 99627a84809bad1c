// Where things stand in the book, and how large its parts are: each offset is the last plus a size. Rows are as far apart as in the
// largest day.
#![tactic(auto)]

ghost use Rattle.std.specs.Prelude.{◌≡◌, ◌+◌, ◌*◌, ◌≤◌, ◌<◌, length};
ghost use Rattle.lists.specs.Parts.{block, grid};
ghost use Rattle.rule.specs.Day.{baskets, code_size, term_size};
ghost use Rattle.rule.specs.Layout.{most_participants, most_issues, lots_size, square, codes_at, terms_at, book_length, row_start, lots_row, position_row, position_cell, mark_square, mark_cell};

pub const BASKETS: usize = 7;

pub const MOST_PARTICIPANTS: usize = 12;

pub const MOST_ISSUES: usize = 32;

// the cells of a code, and of an issue's terms
pub const CODE: usize = 12;

pub const TERM: usize = 6;

// an issue's terms, in the book and in the array of an opening: kind, price, coupon, days, and the two marks
pub type Terms = [u64; TERM];

// the cells of a table by participant and issue, and of a basket's pair marks
pub const LOTS: usize = MOST_ISSUES * MOST_PARTICIPANTS;

pub const SQUARE: usize = MOST_PARTICIPANTS * MOST_PARTICIPANTS;

pub const PARTICIPANTS: usize = 0;

pub const ISSUES: usize = 1;

pub const RUNS: usize = 2;

pub const TRADES: usize = 3;

pub const CODES: usize = 4;

pub const TERMS: usize = CODES + CODE * MOST_ISSUES;

pub const RECEIPTS: usize = TERMS + TERM * MOST_ISSUES;

pub const PAIRS: usize = RECEIPTS + LOTS;

pub const POSITIONS: usize = PAIRS + SQUARE * BASKETS;

pub const NOTICES: usize = POSITIONS + MOST_PARTICIPANTS * BASKETS;

pub const TODAY: usize = NOTICES + LOTS;

pub const TALLY: usize = TODAY + SQUARE * BASKETS;

pub const LENGTH: usize = TALLY + LOTS;

// The cells of a book, of every day.
pub fn length() -> usize
    ensures { result ≡ book_length }
{
    LENGTH
}

// ---- places

// Where a participant's row begins among rows of lots that stand by themselves.
pub fn row_start(participant: usize) -> usize
    requires { participant ≤ most_participants }
    ensures { result ≡ row_start participant }
{
    MOST_ISSUES * participant
}

// The same in a table of the book: the receipts, the notices, the tally.
pub fn lots_row(at: usize, participant: usize) -> usize
    requires { (at ≤ book_length) × (participant ≤ most_participants) }
    ensures { result ≡ lots_row at participant }
{
    at + row_start(participant)
}

// Where a basket's positions begin.
pub fn position_row(basket: usize) -> usize
    requires { basket < baskets }
    ensures { result ≡ position_row basket }
{
    POSITIONS + MOST_PARTICIPANTS * basket
}

// Where a participant's position in a basket stands.
pub fn position(basket: usize, participant: usize) -> usize
    requires { (basket < baskets) × (participant < most_participants) }
    ensures { result ≡ position_cell basket participant }
{
    position_row(basket) + participant
}

// Where a basket's pair marks begin, in yesterday's or in today's.
pub fn mark_square(at: usize, basket: usize) -> usize
    requires { (at ≤ book_length) × (basket ≤ baskets) }
    ensures { result ≡ mark_square at basket }
{
    at + SQUARE * basket
}

// Where a pair's mark stands.
pub fn mark(at: usize, basket: usize, deliverer: usize, receiver: usize) -> usize
    requires { (at ≤ book_length) × (basket < baskets) × (deliverer < most_participants) × (receiver < most_participants) }
    ensures { result ≡ mark_cell at basket deliverer receiver }
{
    mark_square(at, basket) + MOST_PARTICIPANTS * deliverer + receiver
}

// ---- parts of the book, as they are read

// The codes of the day's issues, one after the other.
pub fn codes(book: &[u64], issues: usize) -> &[u64]
    requires { (length book.now ≡ book_length) × (issues ≤ most_issues) }
    ensures cells { result.now ≡ block book.now codes_at (code_size * issues) }
    ensures size { length result.now ≡ code_size * issues }
{
    &book[CODES..CODES + CODE * issues]
}

// The terms of the day's issues.
pub fn terms(book: &[u64], issues: usize) -> &[Terms]
    requires { (length book.now ≡ book_length) × (issues ≤ most_issues) }
    ensures cells { result.now ≡ grid book.now terms_at term_size issues term_size }
    ensures size { length result.now ≡ issues }
{
    let (rows, _) = book[TERMS..RECEIPTS].as_chunks();
    &rows[..issues]
}

// A participant's lots by issue: scheduled, notified, or of the tally.
pub fn lots(book: &[u64], at: usize, participant: usize, issues: usize) -> &[u64]
    requires { (length book.now ≡ book_length) × (at + lots_size ≤ book_length) × (participant < most_participants) × (issues ≤ most_issues) }
    ensures cells { result.now ≡ block book.now (lots_row at participant) issues }
    ensures size { length result.now ≡ issues }
{
    let from = lots_row(at, participant);
    &book[from..from + issues]
}

// The same among rows of lots that stand by themselves.
pub fn own_lots(rows: &[u64], participant: usize, issues: usize) -> &[u64]
    requires { (length rows.now ≡ lots_size) × (participant < most_participants) × (issues ≤ most_issues) }
    ensures cells { result.now ≡ block rows.now (row_start participant) issues }
    ensures size { length result.now ≡ issues }
{
    let from = row_start(participant);
    &rows[from..from + issues]
}

// All participants' rows in the book.
pub fn lots_rows(book: &[u64], at: usize, participants: usize) -> &[u64]
    requires { (length book.now ≡ book_length) × (at + lots_size ≤ book_length) × (participants ≤ most_participants) }
    ensures cells { result.now ≡ block book.now at (most_issues * participants) }
    ensures size { length result.now ≡ most_issues * participants }
{
    &book[at..lots_row(at, participants)]
}

// A basket's positions by participant.
pub fn positions(book: &[u64], basket: usize, participants: usize) -> &[u64]
    requires { (length book.now ≡ book_length) × (basket < baskets) × (participants ≤ most_participants) }
    ensures cells { result.now ≡ block book.now (position_row basket) participants }
    ensures size { length result.now ≡ participants }
{
    let from = position_row(basket);
    &book[from..from + participants]
}

// The pair marks of the baskets, yesterday's or today's: for each a square of rows as far apart as in the largest day.
pub fn squares(book: &[u64], at: usize) -> &[u64]
    requires { (length book.now ≡ book_length) × (at + square * baskets ≤ book_length) }
    ensures cells { result.now ≡ block book.now at (square * baskets) }
    ensures size { length result.now ≡ square * baskets }
{
    &book[at..at + SQUARE * BASKETS]
}

// One basket's.
pub fn marks(book: &[u64], at: usize, basket: usize) -> &[u64]
    requires { (length book.now ≡ book_length) × (at + square * baskets ≤ book_length) × (basket < baskets) }
    ensures cells { result.now ≡ block book.now (mark_square at basket) square }
    ensures size { length result.now ≡ square }
{
    let from = mark_square(at, basket);
    &book[from..from + SQUARE]
}

// The entries of a run's two lists: their numbers, and the most of each.
pub const MATCH: usize = 7;

pub const LINE: usize = 3;

pub const MOST_MATCHES: usize = 77;

pub const MOST_LINES: usize = 2464;
