// What may be used.
#![tactic(auto)]

ghost use Rattle.std.specs.Prelude.{◌≡◌, length};
ghost use Rattle.lists.specs.Tables.{table};
ghost use Rattle.lists.specs.Rows.{Becomes};
ghost use Rattle.run_usable.specs.Stock.{allocable_in, inside_of, usable_of, MarkIssuesAsks, AllocableRowAsks, AllocableRowsAsks, AllocableRowsGives, UsableAsks, UsableRowAsks, UsableRowGives};

use baskets::Marks;
use quantities::{Lots, Yen};
use value::Quote;

// What a run may allocate: each issue's quote, and every participant's allocable quantities in rows as far apart as the book's.
#[derive(Clone, Copy)]
pub struct Stock<'a> {
    pub quotes: &'a [Quote],
    pub allocable: &'a [u64],
}

// A participant's allocable quantities. By number: a zip of the row with all four would be tuples in tuples.
fn allocable_row(book: &[u64], participant: usize, row: &mut [u64])
    requires { AllocableRowAsks book.now participant row.old }
    ensures { Becomes (λ i c. c ≡ allocable_in book.now participant i) row.old row.new }
{
    let runs = book[layout::RUNS];
    let issues = layout::terms(book, row.len());
    let notices = layout::lots(book, layout::NOTICES, participant, row.len());
    let receipts = layout::lots(book, layout::RECEIPTS, participant, row.len());
    for (i, cell) in row.iter_mut().enumerate() {
        let lots = baskets::allocable(
            runs,
            Marks::of(&issues[i]),
            Lots(notices[i]),
            Lots(receipts[i]),
        );
        *cell = lots.0;
    }
}

// Every participant's, in rows as far apart as the book's.
pub fn allocable_rows(book: &[u64], cells: &mut [u64])
    requires { AllocableRowsAsks book.now cells.old }
    ensures { AllocableRowsGives book.now cells.new }
{
    let participants = book[layout::PARTICIPANTS] as usize;
    let issues = book[layout::ISSUES] as usize;
    for p in 0..participants {
        let at = layout::row_start(p);
        allocable_row(book, p, &mut cells[at..at + issues]);
    }
}

// Whether each issue is of the basket. By number: of a row that a zip wrote the prover knows the length and no cell.
pub fn mark_issues(book: &[u64], basket: u64, row: &mut [bool])
    requires { MarkIssuesAsks book.now (length row.old) }
    ensures { row.new ≡ table (length row.old) (inside_of book.now basket) }
{
    let kinds = baskets::kinds_of(basket);
    let issues = layout::terms(book, row.len());
    for (i, mark) in row.iter_mut().enumerate() {
        let [kind, ..]: layout::Terms = issues[i];
        *mark = baskets::is_among(&kinds, kind);
    }
}

// "Lots used earlier in the same run are gone .. Outside the basket nothing may be used".
#[tactic(auto, unfolding(crate::specs::Stock::usable_of))]
fn usable(inside: bool, allocable: Lots, used: Lots) -> Lots
    requires { UsableAsks inside allocable.0 used.0 }
    ensures { result.0 ≡ usable_of inside allocable.0 used.0 }
{
    if inside { allocable - used } else { Lots(0) }
}

// What may be used of each issue, into a lent row, and what all of it is worth. By number: a zip of the five rows would be tuples in
// tuples.
pub fn usable_row(
    inside: &[bool],
    allocable: &[u64],
    used: &[u64],
    quotes: &[Quote],
    row: &mut [u64],
) -> Yen
    requires { UsableRowAsks inside.now allocable.now used.now quotes.now (length row.old) }
    ensures { UsableRowGives inside.now allocable.now used.now quotes.now (length row.old) row.new result.0 }
{
    let mut all = Yen(0);
    for (i, cell) in row.iter_mut().enumerate() {
        let lots = usable(inside[i], Lots(allocable[i]), Lots(used[i]));
        *cell = lots.0;
        all = quotes[i].add_value(all, lots);
    }
    all
}
