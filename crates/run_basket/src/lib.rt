// A basket's step of a run: its matches filled one after the other.
#![tactic(auto)]

ghost use Rattle.std.specs.Prelude.{◌+◌};
ghost use Rattle.rule.specs.Layout.{view};
ghost use Rattle.run_post.specs.Listed.{SameLists};
ghost use Rattle.run_basket.specs.Running.{done_to, Done, RunBasketAsks, AllocateAsks};

use issue_order::Order;
use matching::{Match, Plan};
use run_match::Basket;
use run_post::listing::Lists;
use run_usable::Stock;

// The matches of the basket, filled one after the other.
fn allocate(
    book: &mut [u64],
    basket: &Basket,
    plan: &[Match],
    orders: &mut [Order],
    used: &mut [u64],
    lists: &mut Lists,
)
    requires { AllocateAsks basket.now book.old plan.now orders.old used.old lists.old }
    ensures done { (s : AllocateAsks basket.now book.old plan.now orders.old used.old lists.old)
        → Done s.b₀ s.m₀ s.l₀ (done_to (view s.b₀) s.draw (basket.now.number + 1)) book.new orders.new used.new lists.new }
    ensures same { SameLists lists.old lists.new }
{
    let issues = book[layout::ISSUES] as usize;
    let mut cells = [0u64; layout::MOST_ISSUES];
    let usable = &mut cells[..issues];
    let mut order = Order::new();
    let mut last = None;
    for m in plan {
        let mut places = [0u64; layout::MOST_ISSUES];
        let lots = &mut places[..issues];
        let all = basket.usable_lots(&*book, *m, &*used, &mut *usable);
        run_order::order_for(
            &*book,
            basket.before,
            last,
            *m,
            &*usable,
            all,
            &mut *orders,
            &mut order,
        );
        let f = basket.fill_next(&*book, *m, &*usable, all, &order, &mut *lots);
        run_match::write_next(
            &mut *book,
            basket.number,
            *m,
            f,
            lots,
            &mut *used,
            &mut *lists,
        );
        last = Some(*m);
    }
}

// A basket's matches: planned, filled, listed and booked. `used` are the lots used in the run so far; `before` is lent for those used
// before the basket: a local copy is cleared first in each basket, and run 2 misses its bar (tests/performance.sh).
pub fn run_basket(
    book: &mut [u64],
    number: usize,
    draw: &[u64],
    stock: Stock,
    orders: &mut [Order],
    used: &mut [u64],
    before: &mut [u64; layout::LOTS],
    lists: &mut Lists,
)
    requires { RunBasketAsks number book.old draw.now stock orders.old used.old lists.old }
    ensures done { (s : RunBasketAsks number book.old draw.now stock.entry orders.old used.old lists.old)
        → Done s.b₀ s.m₀ s.l₀ (done_to (view s.b₀) draw.now (number + 1)) book.new orders.new used.new lists.new }
    ensures same { SameLists lists.old lists.new }
{
    let issues = book[layout::ISSUES] as usize;
    let mut plan = Plan::new();
    run_match::plan_basket(&*book, number, draw, &mut plan);
    let mut marks = [false; layout::MOST_ISSUES];
    let inside = &mut marks[..issues];
    run_usable::mark_issues(&*book, number as u64, &mut *inside);
    before.copy_from_slice(used);
    let basket = Basket {
        number,
        stock,
        inside,
        before: &before[..],
    };
    allocate(book, &basket, plan.as_slice(), orders, used, lists);
}
