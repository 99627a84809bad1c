// The valuation: the one place where lots become yen and yen become lots. Callers hold a quote, and never look inside.
#![tactic(auto)]

ghost use Rattle.std.specs.Prelude.{◌≡◌, ℕ, ◌+◌, ◌≤◌, map, length};
ghost use Rattle.rule.specs.Value.{Terms, value as value_of, fewest as fewest_of, most as most_of};
ghost use Rattle.rule.specs.Day.{terms_of};
ghost use Rattle.value.specs.Range.{InRange, Rated, most_lots, most_sum, most_yen};

use quantities::{Lots, Yen};

// What valuing an issue needs: what a lot is worth in 730ths of a yen, in which nothing is rounded.
#[derive(Clone, Copy)]
pub struct Quote {
    rate: u64,
    ghost rated: { Rated rate },
}

impl Quote {
    ghost use Rattle.value.specs.Quote.{QuoteOf};
    ghost use Rattle.value.specs.Quotes.{Quotes, QuoteFillAsks};

    // The least that there is, for places that no quote was written to.
    pub const LEAST: Quote = Quote { rate: 3_650_000 };

    // "5 × n × price, plus n × coupon × days ÷ 730", of one lot.
    pub fn of(price: u64, coupon: u64, days: u64) -> Quote
        requires { InRange price coupon days }
        ensures { (t : Terms) → t.price ≡ price → t.coupon ≡ coupon → t.days ≡ days → QuoteOf t result }
    {
        let clean = 3650 * price;
        let accrued = coupon * days;
        Quote {
            rate: clean + accrued,
        }
    }

    // The quotes of the day's issues. By number: `zip` over `quotes.iter_mut()` was tried, but of what is written through it a proof knows
    // nothing.
    pub fn fill(issues: &[layout::Terms], quotes: &mut [Quote])
        requires { QuoteFillAsks (length quotes.old) issues.now }
        ensures { Quotes (map terms_of issues.now) quotes.new }
    {
        for (i, quote) in quotes.iter_mut().enumerate() {
            let [_, price, coupon, days, ..] = issues[i];
            *quote = Quote::of(price, coupon, days);
        }
    }

    // "The value of n lots .. rounded down once".
    pub fn value(self, lots: Lots) -> Yen
        requires { lots.0 ≤ most_lots }
        ensures { (t : Terms) → QuoteOf t self → result.0 ≡ value_of t lots.0 }
    {
        let parts = lots.0 * self.rate;
        Yen(parts / 730)
    }

    // No more than so many further lots are worth, whatever lots there are already: a bound that costs no division by a rate.
    pub fn least(self, lots: Lots) -> Yen
        requires { lots.0 ≤ most_lots }
        ensures { (t : Terms) → QuoteOf t self → (n : ℕ) → value_of t n + result.0 ≤ value_of t (n + lots.0) }
    {
        let whole = lots.0 / 730;
        Yen(whole * self.rate)
    }

    // "the fewest lots that reach the amount".
    pub fn fewest(self, need: Yen) -> Lots
        requires { need.0 ≤ most_yen }
        ensures { (t : Terms) → QuoteOf t self → result.0 ≡ fewest_of t need.0 }
    {
        let parts = 730 * need.0;
        let up = self.rate - 1;
        Lots((parts + up) / self.rate)
    }

    // The most lots "that keep the .. value at or below" the room: up to 729 parts over it are rounded away.
    pub fn most(self, room: Yen) -> Lots
        requires { room.0 ≤ most_yen }
        ensures { (t : Terms) → QuoteOf t self → result.0 ≡ most_of t room.0 }
    {
        let parts = 730 * room.0 + 729;
        Lots(parts / self.rate)
    }

    // A sum of values, and the value of so many lots. Of no lots it is not worked out.
    pub fn add_value(self, sum: Yen, lots: Lots) -> Yen
        requires few { lots.0 ≤ most_lots }
        requires small { sum.0 ≤ most_sum }
        ensures { (t : Terms) → QuoteOf t self → result.0 ≡ sum.0 + value_of t lots.0 }
    {
        if lots == Lots(0) {
            return sum;
        }
        sum + self.value(lots)
    }
}
