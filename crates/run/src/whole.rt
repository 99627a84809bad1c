// A run on a sound book: the seven baskets, and what they leave.
ghost use Rattle.run_order.specs.Sizes.{DaySized};
ghost use Rattle.run_post.specs.Listed.{SameLists};
ghost use Rattle.run_basket.specs.Running.{RunAsks};
ghost use Rattle.run.specs.Ran.{RunBasketsAsks, RunBasketsGives, ClearNoticesGives, RunGives};

use issue_order::Order;
use reply::Counts;
use run_post::listing::Lists;
use run_usable::Stock;
use value::Quote;

// "Basket by basket, A first".
fn run_baskets(book: &mut [u64], draw: &[u64], stock: Stock, lists: &mut Lists)
    requires { RunBasketsAsks book.old draw.now stock lists.old }
    ensures done { RunBasketsGives book.old draw.now lists.old.matches.now lists.old.lines.now book.new lists.new }
    ensures same { SameLists lists.old lists.new }
{
    let mut used = [0u64; layout::LOTS];
    // one for all baskets: zeros for each would be overwritten at once
    let mut before = [0u64; layout::LOTS];
    // no deliverer's issues are ranked yet
    let mut orders: [Order; layout::MOST_PARTICIPANTS] = Default::default();
    for k in 0..layout::BASKETS {
        run_basket::run_basket(
            &mut *book,
            k,
            draw,
            stock,
            &mut orders[..],
            &mut used[..],
            &mut before,
            &mut *lists,
        );
    }
}

// "Every accepted run clears all notices".
fn clear_notices(book: &mut [u64])
    requires { DaySized book.old }
    ensures { ClearNoticesGives book.old book.new }
{
    let participants = book[layout::PARTICIPANTS] as usize;
    let issues = book[layout::ISSUES] as usize;
    for p in 0..participants {
        let at = layout::lots_row(layout::NOTICES, p);
        book[at..at + issues].fill(0);
    }
}

// A run on a sound book, with a right draw and lists that are long enough. The book stays a slice, as the C interface lends it, and is written
// between: each function that reads its sizes asks for them.
pub fn run(book: &mut [u64], draw: &[u64], matches: &mut [u64], lines: &mut [u64]) -> Counts
    requires { RunAsks book.old draw.now matches.old lines.old }
    ensures { RunGives book.old draw.now matches.old lines.old book.new matches.new lines.new result.matches result.lines }
{
    let issues = book[layout::ISSUES] as usize;
    let mut allocable = [0u64; layout::LOTS];
    run_usable::allocable_rows(&*book, &mut allocable[..]);
    let mut places = [Quote::LEAST; layout::MOST_ISSUES];
    let quotes = &mut places[..issues];
    Quote::fill(layout::terms(&*book, issues), &mut *quotes);
    let stock = Stock {
        quotes,
        allocable: &allocable[..],
    };
    let mut lists = Lists {
        matches,
        lines,
        counts: Counts {
            matches: 0,
            lines: 0,
        },
    };
    run_baskets(&mut *book, draw, stock, &mut lists);
    clear_notices(&mut *book);
    book[layout::RUNS] = book[layout::RUNS] + 1;
    lists.counts
}
