// The lines, a function each.
ghost use Rattle.rule.specs.Layout.{book_length};
ghost use Rattle.std.specs.Prelude.{◌≡◌, length, IfOk};
ghost use Rattle.words.specs.Lines.{words_left};
ghost use Rattle.day_words.specs.Named.{codes_in, codes_of_book};
ghost use Rattle.day_lines.specs.Answered.{Answers, UnreadKeeps, Opens, TradeLine, Trades, Notices};

use crate::failure::Failure;
use arrayvec::ArrayVec;
use day_words::{Codes, codes_of, fill_entries, next_basket};
use layout::{MOST_ISSUES, MOST_PARTICIPANTS};
use opening_data::OpeningData;
use quantities::Yen;
use words::{Line, Unread};

// the entries of a notice or the participants of a draw that there is room for, more than a day has
pub const ROOM: usize = 64;

// "open": makes the opening call.
pub fn open<'a>(
    rt: &impl Print,
    gathered: &OpeningData,
    book: &mut [u64],
    line: Line<'a>,
) -> Result<(), Failure<'a>>
    ensures { Answers result (Opens gathered.now (words_left line.entry) book.old book.new) book.old book.new }
{
    line.end()?;
    gathered.open(book)?;
    println!(rt; "opened")?;
    Ok(())
}

// What a line "trade" names.
#[derive(Drop)]
pub struct TradeCall {
    pub seller: u64,
    pub buyer: u64,
    pub basket: u64,
    pub yen: Yen,
}

fn read_trade<'a>(mut line: Line<'a>) -> Result<TradeCall, Unread<'a>>
    ensures { IfOk result (λ trade. TradeLine (words_left line.entry) trade) }
{
    let seller = line.number("seller")?;
    let buyer = line.number("buyer")?;
    let basket = next_basket(&mut line)?;
    let yen = Yen(line.number("yen")?);
    line.end()?;
    Ok(TradeCall {
        seller,
        buyer,
        basket,
        yen,
    })
}

// "trade SELLER BUYER BASKET YEN"
pub fn trade<'a>(rt: &impl Print, book: &mut [u64], line: Line<'a>) -> Result<(), Failure<'a>>
    ensures { Answers result (Trades (words_left line.entry) book.old book.new) book.old book.new }
{
    let TradeCall {
        seller,
        buyer,
        basket,
        yen,
    } = read_trade(line)?;
    allocation::trade(book, seller, buyer, basket, yen)?;
    println!(rt; "traded")?;
    Ok(())
}

fn codes_in_book(book: &[u64]) -> [u8; day_words::CODES]
    requires { length book.now ≡ book_length }
    ensures { codes_in result ≡ codes_of_book book.now }
{
    let cells = &book[layout::CODES..layout::TERMS];
    codes_of(cells)
}

// "notice PARTICIPANT ISSUE=LOTS ..": a code that the day does not have is passed on as 32, and gets refusal 12.
pub fn notice<'a>(rt: &impl Print, book: &mut [u64], mut line: Line<'a>) -> Result<(), Failure<'a>>
    requires { length book.old ≡ book_length }
    ensures { Answers result (Notices (words_left line.entry) book.old book.new) book.old book.new }
{
    let participant = line.number("participant")?;
    line.at_most(ROOM, "entries")?;
    let codes = codes_in_book(book);
    let codes = Codes { bytes: &codes };
    let mut issues = ArrayVec::<u64, ROOM>::new();
    let mut lots = ArrayVec::<u64, ROOM>::new();
    fill_entries(&codes, &line, &mut issues, &mut lots)?;
    allocation::notice(book, participant, issues.as_slice(), lots.as_slice())?;
    println!(rt; "noted")?;
    Ok(())
}

// "run PARTICIPANT ..": the draw.
pub fn run<'a>(rt: &impl Print, book: &mut [u64], line: Line<'a>) -> Result<(), Failure<'a>>
    requires { length book.old ≡ book_length }
    ensures { UnreadKeeps result book.old book.new }
{
    line.at_most(ROOM, "participants")?;
    let mut draw = ArrayVec::<u64, ROOM>::new();
    line.fill_numbers(&mut draw, "participant")?;
    // the call writes into memory that it is lent, and says how much of it counts
    let mut matches = [0u64; layout::MATCH * layout::MOST_MATCHES];
    let mut lines = [0u64; layout::LINE * layout::MOST_LINES];
    let counts = allocation::run(book, draw.as_slice(), &mut matches, &mut lines)?;
    let ran = println!(rt; "ran {} {}", counts.matches, counts.lines);
    let codes = codes_in_book(book);
    let codes = Codes { bytes: &codes };
    let matches = matches.as_chunks().0;
    let lines = lines.as_chunks().0;
    let matched = listing::matches(rt, &codes, &matches[..matches.len().min(counts.matches)]);
    let listed = listing::lines(rt, &codes, &lines[..lines.len().min(counts.lines)]);
    ran.and(matched).and(listed)?;
    Ok(())
}

// "close": what tomorrow's opening reads.
pub fn close<'a>(rt: &impl Print, book: &[u64], line: Line<'a>) -> Result<(), Failure<'a>>
    requires { length book.now ≡ book_length }
{
    line.end()?;
    // the call writes into memory that it is lent
    let mut receipts = [0u64; opening_data::RECEIPTS];
    let mut pairs = [0u64; opening_data::PAIRS];
    allocation::close(book, &mut receipts, &mut pairs)?;
    let closed = println!(rt; "closed");
    let participants = book[layout::PARTICIPANTS] as usize;
    let issues = book[layout::ISSUES] as usize;
    // a day that is closed has both
    if participants == 0 || issues == 0 {
        closed?;
        return Ok(());
    }
    let codes = codes_in_book(book);
    let codes = Codes { bytes: &codes };
    let received = listing::holdings(rt, "receipt", &codes, &receipts, issues);
    let paired = listing::pairs(rt, "pair", &pairs, participants);
    closed.and(received).and(paired)?;
    Ok(())
}

// "what stands in the book". Places beyond the day's sizes are 0, so whole tables are gone through.
pub fn show<'a>(rt: &impl Print, book: &[u64], line: Line<'a>) -> Result<(), Failure<'a>>
    requires { length book.now ≡ book_length }
{
    line.end()?;
    if book[layout::PARTICIPANTS] == 0 {
        println!(rt; "no day")?;
        return Ok(());
    }
    let codes = codes_in_book(book);
    let codes = Codes { bytes: &codes };
    let notices = &book[layout::NOTICES..layout::TODAY];
    let today = &book[layout::TODAY..layout::TALLY];
    let tally = &book[layout::TALLY..layout::LENGTH];
    let runs = println!(rt; "runs {}", book[layout::RUNS]);
    let trades = println!(rt; "trades {}", book[layout::TRADES]);
    let positions = listing::positions(rt, book);
    let notified = listing::holdings(rt, "notified", &codes, notices, MOST_ISSUES);
    let tallied = listing::holdings(rt, "tally", &codes, tally, MOST_ISSUES);
    let paired = listing::pairs(rt, "paired", today, MOST_PARTICIPANTS);
    runs.and(trades)
        .and(positions)
        .and(notified)
        .and(tallied)
        .and(paired)?;
    Ok(())
}
