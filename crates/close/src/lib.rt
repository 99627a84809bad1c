// Closing a day: "tomorrow's scheduled receipts (the tally where positive, else 0) and pairs (covered above 0 today)".
#![tactic(auto)]

ghost use Rattle.std.specs.Prelude.{◌≡◌};
ghost use Rattle.lists.specs.Parts.{grid, rows_at, written};
ghost use Rattle.lists.specs.Rows.{Spaced};
ghost use Rattle.rule.specs.Layout.{most_participants, close_of};
ghost use Rattle.reply.specs.Answers.{told};
ghost use Rattle.rule.proofs.BookLaws.{SoundBook};
ghost use Rattle.close.specs.Closed.{WriteReceiptsAsks, WritePairsAsks, receipts_written, pairs_written, close_sound};

use reply::Refusal;

// The tally's rows, one after the other.
fn write_receipts(book: &[u64], receipts: &mut [u64])
    requires { WriteReceiptsAsks book.now receipts.old }
    ensures { receipts.new ≡ receipts_written book.now receipts.old }
{
    let participants = book[layout::PARTICIPANTS] as usize;
    let issues = book[layout::ISSUES] as usize;
    for p in 0..participants {
        let to = issues * p;
        let tally = layout::lots(book, layout::TALLY, p, issues);
        lists::copy_with(&mut receipts[to..to + issues], tally, signed::owed_of);
    }
}

// One basket's marks, row after row.
fn write_square(marks: &[u64], participants: usize, square: &mut [u64])
    requires there { Spaced marks.now most_participants participants participants }
    requires room { Spaced square.old participants participants participants }
    ensures { square.new ≡ written square.old (rows_at 0 participants (grid marks.now 0 most_participants participants participants)) }
{
    let rows = lists::Rows {
        cells: marks,
        apart: layout::MOST_PARTICIPANTS,
        n: participants,
        m: participants,
    };
    rows.copy_to(square, participants);
}

// Today's marks, basket by basket.
fn write_pairs(book: &[u64], pairs: &mut [u64])
    requires { WritePairsAsks book.now pairs.old }
    ensures { pairs.new ≡ pairs_written book.now pairs.old }
{
    let participants = book[layout::PARTICIPANTS] as usize;
    let square = participants * participants;
    for k in 0..layout::BASKETS {
        write_square(
            layout::marks(book, layout::TODAY, k),
            participants,
            &mut pairs[square * k..],
        );
    }
}

// In a sound book.
fn close_sound(book: &[u64], receipts: &mut [u64], pairs: &mut [u64]) -> Result<(), Refusal>
    requires { SoundBook book.now }
    ensures { (told result, (receipts.new, pairs.new)) ≡ close_sound book.now receipts.old pairs.old }
{
    if book[layout::RUNS] < 3 {
        return Err(Refusal::FewerThanThreeRuns);
    }
    let n = book[layout::PARTICIPANTS] as usize;
    let m = book[layout::ISSUES] as usize;
    if receipts.len() < n * m {
        return Err(Refusal::ShortList);
    }
    if pairs.len() < layout::BASKETS * (n * n) {
        return Err(Refusal::ShortList);
    }
    write_receipts(book, receipts);
    write_pairs(book, pairs);
    Ok(())
}

// Closes a day after three runs: writes "tomorrow's scheduled receipts (the tally where positive, else 0) and pairs (covered above 0 today)"
// into two lists that are lent. "The book stays"; a refused one leaves the lists too.
pub fn close(book: &[u64], receipts: &mut [u64], pairs: &mut [u64]) -> Result<(), Refusal>
    ensures { (told result, (receipts.new, pairs.new)) ≡ close_of book.now receipts.old pairs.old }
{
    if !sound::is_sound(book) {
        return Err(Refusal::UnsoundBook);
    }
    close_sound(book, receipts, pairs)
}
