// One match of a basket: what it may use, its filling, and what is written of it.
#![tactic(auto)]

ghost use Rattle.std.specs.Prelude.{length};
ghost use Rattle.filling.specs.Match.{FilledAs};
ghost use Rattle.matching.specs.Plans.{Planned};
ghost use Rattle.run_match.specs.Filled.{PlanBasketAsks, PlanRowsAsks, plan_in, UsableLotsAsks, UsableLotsGives, FillNextAsks, filled_in, WriteLotsAsks, WriteLotsGives, WriteNextAsks, WriteNextGives};

use filling::{Filling, Supply};
use issue_order::Order;
use matching::{Match, Plan};
use quantities::Yen;
use run_post::listing::Lists;
use run_post::{booking, issues};
use run_usable::Stock;

// The matches of the basket, from rows for what each participant owes and has due.
fn plan_rows(
    book: &[u64],
    basket: usize,
    draw: &[u64],
    owed: &mut [u64],
    due: &mut [u64],
    plan: &mut Plan,
)
    requires { PlanRowsAsks book.now draw.now basket owed.old due.old }
    ensures { Planned (plan_in book.now draw.now basket) plan.new }
{
    let positions = layout::positions(book, basket, owed.len());
    lists::copy_with(&mut *owed, positions, signed::owed_of);
    lists::copy_with(&mut *due, positions, signed::due_of);
    let pairs = layout::marks(book, layout::PAIRS, basket);
    matching::plan(book[layout::RUNS], pairs, draw, owed, due, plan);
}

// The matches of the basket.
pub fn plan_basket(book: &[u64], basket: usize, draw: &[u64], plan: &mut Plan)
    requires { PlanBasketAsks book.now draw.now basket }
    ensures { Planned (plan_in book.now draw.now basket) plan.new }
{
    let participants = book[layout::PARTICIPANTS] as usize;
    let mut owed = [0u64; layout::MOST_PARTICIPANTS];
    let mut due = [0u64; layout::MOST_PARTICIPANTS];
    plan_rows(
        book,
        basket,
        draw,
        &mut owed[..participants],
        &mut due[..participants],
        plan,
    );
}

// A basket, as its matches are filled: its number, what the run may allocate, which issues are of the basket, and the lots used in
// earlier baskets.
#[derive(Clone, Copy)]
pub struct Basket<'a> {
    pub number: usize,
    pub stock: Stock<'a>,
    pub inside: &'a [bool],
    pub before: &'a [u64],
}

impl Basket<'_> {
    // What a match may use, into a lent row, and what all of it is worth.
    pub fn usable_lots(&self, book: &[u64], m: Match, used: &[u64], usable: &mut [u64]) -> Yen
        requires { UsableLotsAsks book.now self.now m used.now (length usable.old) }
        ensures { UsableLotsGives book.now self.now m used.now usable.new result.0 }
    {
        let issues = book[layout::ISSUES] as usize;
        run_usable::usable_row(
            self.inside,
            layout::own_lots(self.stock.allocable, m.deliverer, issues),
            layout::own_lots(used, m.deliverer, issues),
            self.stock.quotes,
            usable,
        )
    }

    // A match, filled with what it may use: its lots go into a lent row of zeros.
    pub fn fill_next(
        &self,
        book: &[u64],
        m: Match,
        usable: &[u64],
        all: Yen,
        order: &Order,
        lots: &mut [u64],
    ) -> Filling
        requires { FillNextAsks book.now self.now.stock m usable.now all.0 order.now.items lots.old }
        ensures { FilledAs (filled_in book.now self.now.number m usable.now order.now.items) result lots.new }
    {
        let issues = book[layout::ISSUES] as usize;
        let supply = Supply {
            issues: layout::terms(book, issues),
            quotes: self.stock.quotes,
            notified: layout::lots(book, layout::NOTICES, m.deliverer, issues),
            usable,
            order: order.as_slice(),
            all,
        };
        supply.fill_match(
            book[layout::RUNS],
            self.number as u64,
            m.preferential,
            m.amount,
            lots,
        )
    }
}

// A match's lots, the forced ones with them, booked and listed; "forced lots never count as used".
fn write_lots(
    book: &mut [u64],
    used: &mut [u64],
    lists: &mut Lists,
    m: Match,
    f: Filling,
    lots: &mut [u64],
)
    requires { WriteLotsAsks book.old used.old lists.old m f lots.old }
    ensures { WriteLotsGives book.old used.old lists.old m f lots.old book.new used.new lists.new }
{
    let forced = f.forced as usize;
    let further = f.forced_lots;
    lots[forced] = lots[forced] + further.0;
    let at = layout::row_start(m.deliverer);
    let end = at + lots.len();
    issues::write_issues(book, &mut used[at..end], lists, m, &*lots);
    // by its row anew: must-fail/used_again and forced_used change one of the two alone
    let place = layout::row_start(m.deliverer) + forced;
    used[place] = used[place] - further.0;
}

// A match as it was filled: its lots are used, and it is listed and booked.
pub fn write_next(
    book: &mut [u64],
    basket: usize,
    m: Match,
    f: Filling,
    lots: &mut [u64],
    used: &mut [u64],
    lists: &mut Lists,
)
    requires { WriteNextAsks book.old basket m f lots.old used.old lists.old }
    ensures { WriteNextGives book.old basket m f lots.old used.old lists.old book.new used.new lists.new }
{
    booking::move_yen(&mut *book, basket, m, f.covered);
    write_lots(book, used, &mut *lists, m, f, lots);
    lists.add_match(basket as u64, m, f);
}
