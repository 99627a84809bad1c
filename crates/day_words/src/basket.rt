// A basket, which is written as a letter.
ghost use Rattle.rule.specs.Day.{baskets};
ghost use Rattle.std.specs.Prelude.{◌≡◌, ◌-◌, ◌<◌, slice_index, IfOk, OkIff};
ghost use Rattle.words.specs.Lines.{Takes, words_left};
ghost use Rattle.day_words.specs.Named.{IsLetter};

use layout::BASKETS;
use std::fmt;
use words::{Found, Line, Unread};

const LETTER: &str = "basket letter";

// "A basket is a letter, A to G (a letter after G is passed on as its number ..)."
pub fn read_basket(word: &[u8]) -> Result<u64, Unread<'_>>
    ensures { OkIff result (IsLetter word.now) (slice_index word.now 0 - 65) }
{
    match word {
        [letter @ b'A'..=b'Z'] => Ok(u64::from(*letter - b'A')),
        _ => Err(Unread::Expected(LETTER, Found::Word(word))),
    }
}

// The next word, which is a basket.
pub fn next_basket<'a>(line: &mut Line<'a>) -> Result<u64, Unread<'a>>
    ensures { IfOk result (λ b. Takes (λ word. IsLetter word × (slice_index word 0 - 65 ≡ b)) (words_left line.old) (words_left line.new)) }
{
    let word = line.word(LETTER)?;
    read_basket(word)
}

// The next word, which is one of the baskets that there are.
pub fn next_basket_of_day<'a>(line: &mut Line<'a>) -> Result<u64, Unread<'a>>
    ensures below { IfOk result (λ b. b < baskets) }
    ensures read { IfOk result (λ b. Takes (λ word. IsLetter word × (slice_index word 0 - 65 ≡ b)) (words_left line.old) (words_left line.new)) }
{
    let word = line.word(LETTER)?;
    let basket = read_basket(word)?;
    if basket >= BASKETS as u64 {
        return Err(Unread::Expected("basket A to G", Found::Word(word)));
    }
    Ok(basket)
}

#[derive(Clone, Copy)]
pub struct Basket(pub u64);

impl fmt::Display for Basket {
    fn fmt<W: fmt::Write>(&self, f: &mut fmt::Formatter<W>) -> fmt::Result {
        match (b'A'..=b'Z').nth(self.0 as usize) {
            Some(letter) => f.write_char(char::from(letter)),
            None => Ok(()),
        }
    }
}
