// The records under an answer, a line each. A line that cannot be written does not stop the next ones; the first such failure is
// answered. The comments quote docs/DAYFILE.md.
#![tactic(auto)]

ghost use Rattle.rule.specs.Layout.{notices_at};
ghost use Rattle.std.specs.Prelude.{◌<◌, ◌≤◌, length};

use day_words::{Basket, Codes};
use layout::{BASKETS, MOST_PARTICIPANTS, POSITIONS};
use std::io;

// "match NUMBER BASKET DELIVERER RECEIVER MATCHED COVERED FORCED-CODE FORCED-LOTS (- 0 where nothing was forced)"
pub fn matches(rt: &impl Print, codes: &Codes<'_>, rows: &[[u64; 7]]) -> io::Result<()> {
    let mut written = Ok(());
    for (n, row) in rows.iter().enumerate() {
        let [basket, deliverer, receiver, matched, covered, forced, lots] = *row;
        let basket = Basket(basket);
        let code = if lots == 0 {
            "-"
        } else {
            codes.text(forced as usize)
        };
        let line = println!(rt;
            "match {n} {basket} {deliverer} {receiver} {matched} {covered} {code} {lots}"
        );
        written = written.and(line);
    }
    written
}

// "line MATCH CODE LOTS"
pub fn lines(rt: &impl Print, codes: &Codes<'_>, rows: &[[u64; 3]]) -> io::Result<()> {
    let mut written = Ok(());
    for row in rows {
        let [number, issue, lots] = *row;
        let line = println!(rt; "line {number} {} {lots}", codes.text(issue as usize));
        written = written.and(line);
    }
    written
}

// The lots that are not 0, by participant, then issue. Rows have a width, and the lots of a tally a sign.
pub fn holdings(
    rt: &impl Print,
    kind: &str,
    codes: &Codes<'_>,
    cells: &[u64],
    width: usize,
) -> io::Result<()>
    requires { 0 < width }
{
    let mut written = Ok(());
    for (participant, row) in cells.chunks(width).enumerate() {
        for (issue, lots) in row.iter().enumerate() {
            if *lots != 0 {
                let code = codes.text(issue);
                let line = println!(rt; "{kind} {participant} {code} {}", lots.cast_signed());
                written = written.and(line);
            }
        }
    }
    written
}

// The marks that are not 0, by basket, deliverer, receiver. Squares have a width.
pub fn pairs(rt: &impl Print, kind: &str, cells: &[u64], width: usize) -> io::Result<()>
    requires { 0 < width }
{
    let mut written = Ok(());
    for (row, marks) in cells.chunks(width).enumerate() {
        let basket = Basket((row / width) as u64);
        let deliverer = row % width;
        for (receiver, mark) in marks.iter().enumerate() {
            if *mark != 0 {
                let line = println!(rt; "{kind} {basket} {deliverer} {receiver}");
                written = written.and(line);
            }
        }
    }
    written
}

// The positions that are not 0, with their sign, by participant, then basket; in the book they stand by basket.
pub fn positions(rt: &impl Print, book: &[u64]) -> io::Result<()>
    requires { notices_at ≤ length book.now }
{
    let mut written = Ok(());
    for participant in 0..MOST_PARTICIPANTS {
        for basket in 0..BASKETS {
            let yen = book[POSITIONS + MOST_PARTICIPANTS * basket + participant];
            if yen != 0 {
                let basket = Basket(basket as u64);
                let line = println!(rt; "position {participant} {basket} {}", yen.cast_signed());
                written = written.and(line);
            }
        }
    }
    written
}
