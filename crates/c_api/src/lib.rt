// The calls for C and Rust, which include/allocation.h declares: each hands over to the library's, and turns the answer into one number.
#![tactic(auto)]

ghost use Rattle.std.specs.Prelude.{◌≡◌, ◌≤◌};
ghost use Rattle.rule.specs.Layout.{book_length, open_of, trade_of, notice_of, run_of, close_of};
ghost use Rattle.reply.specs.Answers.{told, told_run};
ghost use Rattle.c_api.specs.Returned.{returned, for_c, ReturnedRunAsks};

use quantities::Yen;
use reply::{Counts, Refusal};

// A run's number: 2^32 + matches × 2^16 + lines.
const RAN: u64 = 4294967296;

const PER_MATCH: u64 = 65536;

fn returned(answer: Result<(), Refusal>) -> u64
    ensures { result ≡ returned (told answer) }
{
    match answer {
        Ok(()) => 0,
        Err(why) => u64::from(why),
    }
}

// A run's is not the same function at another type: what is accepted has a number of its own, as `told_run` and `told` have it.
fn returned_run(answer: Result<Counts, Refusal>) -> u64
    requires { ReturnedRunAsks (told_run answer) }
    ensures { result ≡ returned (told_run answer) }
{
    match answer {
        Ok(counts) => RAN + counts.matches as u64 * PER_MATCH + counts.lines as u64,
        Err(why) => u64::from(why),
    }
}

#[unsafe(no_mangle)]
pub extern "C" fn allocation_book_length() -> u64
    ensures { result ≡ book_length }
{
    layout::length() as u64
}

#[unsafe(no_mangle)]
pub extern "C" fn allocation_open(
    participants: u64,
    issues: u64,
    codes: &[u8],
    terms: &[u64],
    receipts: &[u64],
    pairs: &[u64],
    book: &mut [u64],
) -> u64
    ensures { (result, book.new) ≡ for_c (open_of participants issues codes.now terms.now receipts.now pairs.now book.old) }
{
    returned(allocation::open(participants, issues, codes, terms, receipts, pairs, book))
}

#[unsafe(no_mangle)]
pub extern "C" fn allocation_trade(
    book: &mut [u64],
    seller: u64,
    buyer: u64,
    basket: u64,
    yen: u64,
) -> u64
    ensures { (result, book.new) ≡ for_c (trade_of book.old seller buyer basket yen) }
{
    returned(allocation::trade(book, seller, buyer, basket, Yen(yen)))
}

#[unsafe(no_mangle)]
pub extern "C" fn allocation_notice(
    book: &mut [u64],
    participant: u64,
    issues: &[u64],
    lots: &[u64],
) -> u64
    ensures { (result, book.new) ≡ for_c (notice_of book.old participant issues.now lots.now) }
{
    returned(allocation::notice(book, participant, issues, lots))
}

#[unsafe(no_mangle)]
pub extern "C" fn allocation_run(
    book: &mut [u64],
    draw: &[u64],
    matches: &mut [u64],
    lines: &mut [u64],
) -> u64
    ensures { (result, (book.new, matches.new, lines.new)) ≡ for_c (run_of book.old draw.now matches.old lines.old) }
{
    returned_run(allocation::run(book, draw, matches, lines))
}

#[unsafe(no_mangle)]
pub extern "C" fn allocation_close(book: &[u64], receipts: &mut [u64], pairs: &mut [u64]) -> u64
    ensures { (result, (receipts.new, pairs.new)) ≡ for_c (close_of book.now receipts.old pairs.old) }
{
    returned(allocation::close(book, receipts, pairs))
}
