// The order of a deliverer's issues in a match, through a run.
#![tactic(auto)]

ghost use Rattle.std.specs.Prelude.{◌≡◌, true, [], length, get_or};
ghost use Rattle.lists.specs.Order.{ranked};
ghost use Rattle.run_order.specs.Orders.{Same, RankIssuesAsks, LoadOrderAsks, LoadOrderGives, OrderForAsks, OrderForGives};

use issue_order::Order;
use matching::Match;
use quantities::Yen;

// Has the match before m the same deliverer, and is it of the same sort? Then their orders are the same.
fn follows(last: Option<Match>, m: Match) -> bool
    ensures { result ≡ true → Same last m }
{
    match last {
        Some(l) => l.deliverer == m.deliverer && l.preferential == m.preferential,
        None => false,
    }
}

// A deliverer's issues, ranked by notified lots when they are first asked for in a run: until then the ranking is empty. Not by
// `ranking::rank`, which writes over cells that are there.
fn rank_issues(notified: &[u64], ranks: &mut Order)
    requires { RankIssuesAsks notified.now ranks.old.items }
    ensures { ranks.new.items ≡ ranked (λ i. get_or notified.now i 0) (length notified.now) }
{
    if !ranks.is_empty() {
        return;
    }
    for issue in 0..notified.len() {
        ranks.push(issue as u64);
    }
    ranking::sort(notified, ranks.as_mut_slice());
}

// The order of the deliverer's issues of which something may be used.
fn load_order(
    book: &[u64],
    before: &[u64],
    m: Match,
    usable: &[u64],
    orders: &mut [Order],
    order: &mut Order,
)
    requires { LoadOrderAsks book.now before.now m.deliverer usable.now orders.old }
    ensures { LoadOrderGives book.now before.now m.deliverer m.preferential usable.now orders.new order.new.items }
{
    let issues = book[layout::ISSUES] as usize;
    let notified = layout::lots(book, layout::NOTICES, m.deliverer, issues);
    let earlier = layout::own_lots(before, m.deliverer, issues);
    let ranks = &mut orders[m.deliverer];
    rank_issues(notified, &mut *ranks);
    issue_order::issue_order(
        m.preferential,
        notified,
        earlier,
        ranks.as_slice(),
        usable,
        order,
    );
}

// The order of a match's issues, where filling goes through them: it is worked out at most once for each deliverer, basket and sort of
// match. `last` is the match before, if there is one, and `order` its order.
pub fn order_for(
    book: &[u64],
    before: &[u64],
    last: Option<Match>,
    m: Match,
    usable: &[u64],
    all: Yen,
    orders: &mut [Order],
    order: &mut Order,
)
    requires { OrderForAsks book.now before.now last m usable.now orders.old order.old.items }
    ensures { OrderForGives book.now before.now m usable.now all.0 orders.new order.new.items }
{
    if !order.is_empty() && follows(last, m) {
        return;
    }
    if !filling::goes_through(book[layout::RUNS], all, m.amount) {
        order.clear();
        return;
    }
    load_order(book, before, m, usable, orders, order);
}
