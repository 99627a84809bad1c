// A trade: "adds its yen to the seller's position in a basket and takes them from the buyer's".
#![tactic(auto)]

ghost use Rattle.std.specs.Prelude.{◌≡◌, ◌+◌, ◌*◌, ◌<◌};
ghost use Rattle.rule.specs.Layout.{trade_of};
ghost use Rattle.rule.proofs.BookLaws.{SoundBook};
ghost use Rattle.reply.specs.Answers.{told};
ghost use Rattle.trade.specs.Checked.{Between, trade_between, trade_sound};

use quantities::Yen;
use reply::Refusal;
use sound::limits;

// "amount 0 or above 10^12 yen"
const AMOUNT_LIMIT: Yen = Yen(1_000_000_000_000);

// A trade as it is given.
#[derive(Clone, Copy)]
struct Sale {
    seller: u64,
    buyer: u64,
    basket: u64,
    amount: Yen,
}

impl Sale {
    // Between two participants of the day: the checks on the basket, the positions and the count, and then the writes.
    fn move_yen(self, book: &mut [u64]) -> Result<(), Refusal>
        requires { Between book.old self.seller self.buyer self.basket self.amount.0 }
        ensures { (told result, book.new) ≡ trade_between book.old self.seller self.buyer self.basket self.amount.0 }
    {
        if !sound::tradable(book, self.basket as usize) {
            return Err(Refusal::NoUnmarkedIssue);
        }
        let at_seller = layout::position(self.basket as usize, self.seller as usize);
        let at_buyer = layout::position(self.basket as usize, self.buyer as usize);
        let sold = signed::more(book[at_seller], self.amount.0);
        let bought = signed::less(book[at_buyer], self.amount.0);
        // Cells and their limits are numbers: a rule of the project.
        if signed::owed_of(sold) > limits::POSITION {
            return Err(Refusal::PositionTooLarge);
        }
        if signed::due_of(bought) > limits::POSITION {
            return Err(Refusal::PositionTooLarge);
        }
        let trades = book[layout::TRADES];
        if trades >= limits::TRADES {
            return Err(Refusal::TooManyTrades);
        }
        book[at_seller] = sold;
        book[at_buyer] = bought;
        book[layout::TRADES] = trades + 1;
        Ok(())
    }

    // In a sound book: the checks on the day, the parties and the amount come first.
    fn enter(self, book: &mut [u64]) -> Result<(), Refusal>
        requires { SoundBook book.old }
        ensures { (told result, book.new) ≡ trade_sound book.old self.seller self.buyer self.basket self.amount.0 }
    {
        if book[layout::RUNS] >= 3 {
            return Err(Refusal::ThreeRunsDone);
        }
        let participants = book[layout::PARTICIPANTS];
        if self.seller >= participants {
            return Err(Refusal::NotOfDay);
        }
        if self.buyer >= participants {
            return Err(Refusal::NotOfDay);
        }
        if self.basket >= layout::BASKETS as u64 {
            return Err(Refusal::NotOfDay);
        }
        if self.seller == self.buyer {
            return Err(Refusal::NotOfDay);
        }
        if self.amount == Yen(0) {
            return Err(Refusal::WrongAmount);
        }
        if self.amount > AMOUNT_LIMIT {
            return Err(Refusal::WrongAmount);
        }
        self.move_yen(book)
    }
}

// "A trade adds its yen to the seller's position in a basket and takes them from the buyer's". A refused one leaves the book as it was.
pub fn trade(
    book: &mut [u64],
    seller: u64,
    buyer: u64,
    basket: u64,
    amount: Yen,
) -> Result<(), Refusal>
    ensures { (told result, book.new) ≡ trade_of book.old seller buyer basket amount.0 }
{
    if !sound::is_sound(book) {
        return Err(Refusal::UnsoundBook);
    }
    let sale = Sale {
        seller,
        buyer,
        basket,
        amount,
    };
    sale.enter(book)
}
