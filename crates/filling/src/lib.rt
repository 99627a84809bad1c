// How many lots of which issues a match gets. Everything is by issue number; quotes stand for prices.
#![tactic(auto)]

ghost use Rattle.std.specs.Prelude.{◌≡◌, false, length};
ghost use Rattle.rule.specs.Filling.{covered as covered_of, fill as fill_of, force as force_of, filled};
ghost use Rattle.filling.specs.Rows.{passes_of, TakeTurnAsks, TakeTurnGives, FillMatchAsks};
ghost use Rattle.filling.specs.Match.{CoveredAsks, Idle, Supplied, ForceAsks, FilledAs};

use quantities::{Lots, Yen};
use turns::{Pass, Standing};
use value::Quote;

const SHORTAGE_STEP: Yen = Yen(10_000_000);

// "the shortage is rounded up to 10,000,000 yen, at most the amount .. the rest is the covered amount".
#[tactic(auto, unfolding(rule::specs::Filling::covered, rule::specs::Filling::shortage))]
pub fn covered(amount: Yen, usable: Yen) -> Yen
    requires { CoveredAsks amount.0 }
    ensures { result.0 ≡ covered_of amount.0 usable.0 }
{
    if amount <= usable {
        return amount;
    }
    let shortage = (amount - usable).rounded_up(SHORTAGE_STEP);
    if amount <= shortage {
        return Yen(0);
    }
    amount - shortage
}

// Whether filling goes through the issues: not where what is short is forced, or nothing is covered.
pub fn goes_through(runs: u64, all: Yen, amount: Yen) -> bool
    requires { CoveredAsks amount.0 }
    ensures { result ≡ false → Idle runs all.0 amount.0 }
{
    if amount <= all {
        return true;
    }
    if runs >= 2 {
        return false;
    }
    let rest = covered(amount, all);
    rest > Yen(0)
}

// "A preferential match walks the issues .. A drawn match has three passes".
fn passes_of(preferential: bool) -> &'static [Pass]
    ensures { result.now ≡ passes_of preferential }
{
    if preferential {
        &[Pass::Rest]
    } else {
        &[Pass::Units, Pass::Remainders, Pass::Rest]
    }
}

// A match as it was filled, beside its lots: the covered amount, and the forced issue and lots, "both 0 if none". No Option: the list's
// entry and the lots used take both numbers as they are, without a branch.
#[derive(Clone, Copy)]
pub struct Filling {
    pub covered: Yen,
    pub forced: u64,
    pub forced_lots: Lots,
}

// What a match may use of its deliverer's lots, and in which order: `all` is what all usable lots are worth. The order need not name every
// issue. Rows of cells, no row of structs: terms and notified lots stand so in the book, and an order names an issue by its number in each
// row.
#[derive(Clone, Copy)]
pub struct Supply<'a> {
    pub issues: &'a [layout::Terms],
    pub quotes: &'a [Quote],
    pub notified: &'a [u64],
    pub usable: &'a [u64],
    pub order: &'a [u64],
    pub all: Yen,
    pub ghost supplied: { Supplied issues.now quotes.now notified.now usable.now order.now all.0 },
}

impl Supply<'_> {
    ghost use Rattle.filling.specs.Supply.{supply_terms, forced_in};

    // One match, filled: `runs` are the runs done, and the lots go into a lent row of zeros. What is short is forced in run 3 and carried
    // before: "the shortage .. stays in both positions; the rest is the covered amount and is filled afresh". Where nothing is short, all
    // of the amount is covered.
    pub fn fill_match(
        &self,
        runs: u64,
        basket: u64,
        preferential: bool,
        amount: Yen,
        lots: &mut [u64],
    ) -> Filling
        requires { FillMatchAsks (length self.now.usable.now) amount.0 lots.old }
        ensures { FilledAs (filled runs preferential (supply_terms self.now) self.now.usable.now self.now.order.now (forced_in basket self.now) amount.0) result lots.new }
    {
        if runs >= 2 && self.all < amount {
            return self.force(basket, amount, lots);
        }
        let part = covered(amount, self.all);
        self.fill(preferential, part, lots);
        Filling {
            covered: part,
            forced: 0,
            forced_lots: Lots(0),
        }
    }

    // "In run 3 all usable lots go, and the fewest further lots of one forced issue reach the amount".
    fn force(&self, basket: u64, amount: Yen, lots: &mut [u64]) -> Filling
        requires { ForceAsks (length self.now.usable.now) self.now.all.0 amount.0 (length lots.old) }
        ensures { FilledAs (force_of (supply_terms self.now) self.now.usable.now (forced_in basket self.now) amount.0) result lots.new }
    {
        lots.copy_from_slice(self.usable);
        let i = forced::forced_issue(self.issues, basket, self.notified);
        let standing = Standing {
            quote: self.quotes[i],
            had: Lots(self.usable[i]),
            reached: self.all,
        };
        let further = standing.further_lots(amount);
        Filling {
            covered: amount,
            forced: i as u64,
            forced_lots: further,
        }
    }

    // Usable lots for the amount, in a match that has nothing yet. "A preferential match walks the issues .. and ends with the fewest lots
    // that reach the amount. A drawn match has three passes .. filling leaves both walks when the amount is reached".
    // Not inlined: within the code of a run, drawn runs take a fifth more time.
    #[inline(never)]
    fn fill(&self, preferential: bool, amount: Yen, lots: &mut [u64])
        requires { FillMatchAsks (length self.now.usable.now) amount.0 lots.old }
        ensures { lots.new ≡ (fill_of preferential (supply_terms self.now) self.now.usable.now self.now.order.now amount.0).lots }
    {
        if amount == Yen(0) {
            return;
        }
        let mut reached = Yen(0);
        'passes: for pass in passes_of(preferential) {
            for issue in self.order {
                let i = *issue as usize;
                let Some(worth) = self.take_turn(*pass, i, reached, amount, lots) else {
                    continue;
                };
                reached = worth;
                if amount <= reached {
                    break 'passes;
                }
            }
        }
    }

    // The turn of issue i: what the match then has of it goes into lots, and what it is then worth is the answer. None where it takes
    // nothing.
    fn take_turn(
        &self,
        pass: Pass,
        i: usize,
        reached: Yen,
        amount: Yen,
        lots: &mut [u64],
    ) -> Option<Yen>
        requires { TakeTurnAsks pass self.now.quotes.now lots.old self.now.usable.now i reached.0 amount.0 }
        ensures { TakeTurnGives pass self.now.quotes.now lots.old self.now.usable.now i reached.0 amount.0 lots.new result }
    {
        let standing = Standing {
            quote: self.quotes[i],
            had: Lots(lots[i]),
            reached,
        };
        // not by `?`: must-fail/ends_at_misfit changes this answer
        let Some(turn) = standing.next(pass, Lots(self.usable[i]), amount) else {
            return None;
        };
        lots[i] = turn.lots.0;
        Some(turn.reached)
    }
}
