// An issue's turn in a match: how many lots it then has, and what the match is then worth.
#![tactic(auto)]

ghost use Rattle.std.specs.Prelude.{◌≡◌, ◌-◌, ◌*◌, ◌/◌};
ghost use Rattle.rule.specs.Value.{Terms, fewest as fewest_of};
ghost use Rattle.value.specs.Quote.{QuoteOf};
ghost use Rattle.rule.specs.Filling.{unit};
ghost use Rattle.turns.specs.Turns.{besides, Few, Part, WithLotsAsks, lots_up_to, whole_units, TakeUpToAsks, TakeUnitsAsks, WithLotsGives, Took, FurtherLotsAsks};
ghost use Rattle.turns.specs.Passes.{next_of, NextAsks};

use quantities::{Lots, Yen};
use value::Quote;

// A unit of a drawn match's first pass.
const UNIT: Lots = Lots(100_000);

// Its target is a multiple of so many yen.
const TARGET_STEP: Yen = Yen(5_000_000_000);

// The passes of a drawn match. The last one is also all of a preferential match.
#[derive(Clone, Copy)]
pub enum Pass {
    Units,
    Remainders,
    Rest,
}

// An issue's lots in a match after its turn, and what the match is worth with them.
#[derive(Clone, Copy)]
pub struct Turn {
    pub lots: Lots,
    pub reached: Yen,
}

// All whole units of so many lots. The lots of a notice fit into 32 bits, in which they are divided more quickly.
fn whole_units(lots: Lots) -> Lots
    requires { Few lots.0 }
    ensures { result.0 ≡ lots.0 / unit * unit }
{
    let units = lots.0 as u32 / UNIT.0 as u32;
    Lots(u64::from(units) * UNIT.0)
}

// So many lots of the issue, beside others that are worth so much.
fn with_lots(quote: Quote, others: Yen, lots: Lots) -> Turn
    requires { WithLotsAsks others.0 lots.0 }
    ensures { WithLotsGives quote others.0 lots.0 result }
{
    Turn {
        lots,
        reached: others + quote.value(lots),
    }
}

// Where a match stands when an issue's turn comes: the lots that it has of the issue, and what it is worth with all its lots.
#[derive(Clone, Copy)]
pub struct Standing {
    pub quote: Quote,
    pub had: Lots,
    pub reached: Yen,
    pub ghost part: { Part quote had.0 reached.0 },
}

impl Standing {
    // What the match's other issues are worth: all of it, where it has no lot of this one.
    fn others(self) -> Yen
        ensures { (t : Terms) → QuoteOf t self.quote → result.0 ≡ besides t self.had.0 self.reached.0 }
    {
        if self.had == Lots(0) {
            return self.reached;
        }
        self.reached - self.quote.value(self.had)
    }

    // "take all, or the fewest lots that reach the amount": the match may have up to a bound of the issue. None where it has that.
    // Where all of them stay below the amount nothing is divided.
    fn take_up_to(self, bound: Lots, amount: Yen) -> Option<Turn>
        requires { TakeUpToAsks self.had.0 bound.0 self.reached.0 amount.0 }
        ensures { (t : Terms) → QuoteOf t self.quote → Took t self.had.0 self.reached.0 (lots_up_to t bound.0 self.had.0 self.reached.0 amount.0) result }
    {
        if bound <= self.had {
            return None;
        }
        let rest = self.others();
        let all = with_lots(self.quote, rest, bound);
        if all.reached < amount {
            return Some(all);
        }
        let fewest = self.quote.fewest(amount - rest);
        Some(with_lots(self.quote, rest, fewest))
    }

    // "the most units of 100,000 lots that keep the match's value at or below the target", in a match that has no lot of the issue.
    // Nothing is divided by what a lot is worth where a unit is worth more than is left, or all whole units stay within it.
    fn take_units(self, usable: Lots, target: Yen) -> Option<Turn>
        requires { TakeUnitsAsks self.had.0 usable.0 self.reached.0 target.0 }
        ensures { (t : Terms) → QuoteOf t self.quote → Took t self.had.0 self.reached.0 (whole_units t usable.0 self.had.0 self.reached.0 target.0) result }
    {
        if usable < UNIT {
            return None;
        }
        let room = target - self.reached;
        if room < self.quote.least(UNIT) {
            return None;
        }
        let whole = whole_units(usable);
        let all = with_lots(self.quote, self.reached, whole);
        if all.reached <= target {
            return Some(all);
        }
        let most = self.quote.most(room).rounded_down(UNIT);
        Some(with_lots(self.quote, self.reached, most))
    }

    // "each issue's remainder under a unit, as counted when the match began": the first pass took whole units. Where no further unit is
    // left, the remainder is all that is left.
    fn take_remainder(self, usable: Lots, amount: Yen) -> Option<Turn>
        requires { NextAsks Pass.Remainders self.had.0 usable.0 self.reached.0 amount.0 }
        ensures { (t : Terms) → QuoteOf t self.quote → Took t self.had.0 self.reached.0 (next_of Pass.Remainders t usable.0 self.had.0 self.reached.0 amount.0) result }
    {
        let left = usable - self.had;
        if left < UNIT {
            return self.take_up_to(usable, amount);
        }
        let whole = whole_units(usable);
        let remainder = usable - whole;
        if remainder == Lots(0) {
            return None;
        }
        self.take_up_to(self.had + remainder, amount)
    }

    // The issue's turn in a pass; none where it takes nothing.
    pub fn next(self, pass: Pass, usable: Lots, amount: Yen) -> Option<Turn>
        requires { NextAsks pass self.had.0 usable.0 self.reached.0 amount.0 }
        ensures { (t : Terms) → QuoteOf t self.quote → Took t self.had.0 self.reached.0 (next_of pass t usable.0 self.had.0 self.reached.0 amount.0) result }
    {
        match pass {
            // "the amount rounded down to a multiple of 5,000,000,000 yen"
            Pass::Units => self.take_units(usable, amount.rounded_down(TARGET_STEP)),
            Pass::Remainders => self.take_remainder(usable, amount),
            Pass::Rest => self.take_up_to(usable, amount),
        }
    }

    // "the fewest further lots of one forced issue reach the amount".
    pub fn further_lots(self, amount: Yen) -> Lots
        requires { FurtherLotsAsks self.reached.0 amount.0 }
        ensures { (t : Terms) → QuoteOf t self.quote → result.0 ≡ fewest_of t (amount.0 - besides t self.had.0 self.reached.0) - self.had.0 }
    {
        let rest = self.others();
        self.quote.fewest(amount - rest) - self.had
    }
}
