// A filled match in the book: two positions, a pair of today, and two tallies of each issue.
ghost use Rattle.run_post.specs.Booked.{ShiftAsks, ShiftGives, MoveYenAsks, MoveLotsAsks, MoveYenGives, MoveLotsGives};

use matching::Match;
use quantities::{Lots, Yen};

// One signed cell less by an amount, another more by it.
fn shift(book: &mut [u64], from: usize, to: usize, amount: u64)
    requires { ShiftAsks book.old from to }
    ensures { ShiftGives book.old book.new from to amount }
{
    book[from] = signed::less(book[from], amount);
    book[to] = signed::more(book[to], amount);
}

// "The covered yen leave both positions". A pair is today's where it is "covered above 0 today".
pub fn move_yen(book: &mut [u64], basket: usize, m: Match, covered: Yen)
    requires { MoveYenAsks book.old basket m.deliverer m.receiver }
    ensures { MoveYenGives book.old book.new basket m.deliverer m.receiver covered.0 }
{
    let from = layout::position(basket, m.deliverer);
    let to = layout::position(basket, m.receiver);
    shift(&mut *book, from, to, covered.0);
    if covered > Yen(0) {
        let pair = layout::mark(layout::TODAY, basket, m.deliverer, m.receiver);
        book[pair] = 1;
    }
}

// The tally: "lots delivered, forced ones included, less lots received". One issue's.
pub fn move_lots(book: &mut [u64], m: Match, issue: usize, lots: Lots)
    requires { MoveLotsAsks book.old m.deliverer m.receiver issue }
    ensures { MoveLotsGives book.old book.new m.deliverer m.receiver issue lots.0 }
{
    let delivered = layout::lots_row(layout::TALLY, m.deliverer) + issue;
    let received = layout::lots_row(layout::TALLY, m.receiver) + issue;
    shift(book, received, delivered, lots.0);
}
