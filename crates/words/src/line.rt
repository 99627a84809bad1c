// A line's words, read one after the other by what is expected there.
ghost use Rattle.std.specs.Prelude.{◌≡◌, ◌↔◌, ◌<◌, ◌≤◌, ◌∷◌, [], length, map, slice_index, EachIndex, IfOk, IfErr, OkIff, OnErr, OnOk, IsOk, IsTrue};
ghost use Rattle.std.specs.Int.{IsInRange};
ghost use Rattle.std.specs.List.{All};
ghost use Rattle.std.specs.Str.Parse.{IsNumeral, digits_value};
ghost use Rattle.words.specs.Lines.{words_left, IsNumber, Takes, LacksFirst, SaysTooLarge};

use crate::unread::{Found, Unread};
use arrayvec::ArrayVec;
use std::alloc::Global;

// The words that are not read yet.
#[derive(Clone, Copy)]
pub struct Line<'a> {
    pub words: &'a [&'a [u8]],
}

fn are_digits(bytes: &[u8]) -> bool
    ensures { IsTrue result ↔ EachIndex bytes.now (λ k. IsInRange 48 57 (slice_index bytes.now k)) }
{
    bytes.iter().all(|byte| matches!(*byte, b'0'..=b'9'))
}

fn is_numeral(word: &[u8]) -> bool
    ensures { IsTrue result ↔ IsNumeral 10 word.now }
{
    !word.is_empty() && are_digits(word)
}

// A word that is a number: it is said whether one that is none is too large.
pub fn read_number<'a>(word: &'a [u8], what: &'static str) -> Result<u64, Unread<'a>>
    ensures read { OkIff result (IsNumber word.now) (digits_value 10 word.now) }
    ensures too_large { IfErr result (λ why. SaysTooLarge why ↔ IsNumeral 10 word.now) }
{
    match crate::number(word) {
        Some(number) => Ok(number),
        None if is_numeral(word) => Err(Unread::Expected(what, Found::TooLarge(word))),
        None => Err(Unread::Expected(what, Found::Word(word))),
    }
}

impl<'a> Line<'a> {
    pub fn new(words: &'a [&'a [u8]]) -> Line<'a>
        ensures { result.words.now ≡ words.now }
    {
        Line { words }
    }

    // The next word.
    pub fn word(&mut self, what: &'static str) -> Result<&'a [u8], Unread<'a>>
        ensures read { IfOk result (λ word. words_left self.old ≡ word.now ∷ words_left self.new) }
        ensures ended { OnErr result (words_left self.old ≡ []) }
    {
        let words = self.words;
        let Some((word, left)) = words.split_first() else {
            return Err(Unread::Expected(what, Found::End));
        };
        *self = Line { words: left };
        Ok(*word)
    }

    // The next word, which is a number.
    pub fn number(&mut self, what: &'static str) -> Result<u64, Unread<'a>>
        ensures read { IfOk result (λ n. Takes (λ word. IsNumber word × (digits_value 10 word ≡ n)) (words_left self.old) (words_left self.new)) }
        ensures unread { OnErr result (LacksFirst IsNumber (words_left self.old)) }
    {
        let word = self.word(what)?;
        read_number(word, what)
    }

    // The next word, which is a number below a limit.
    pub fn below(&mut self, what: &'static str, limit: u64) -> Result<u64, Unread<'a>>
        ensures below { IfOk result (λ n. n < limit) }
        ensures read { IfOk result (λ n. Takes (λ word. IsNumber word × (digits_value 10 word ≡ n)) (words_left self.old) (words_left self.new)) }
    {
        let word = self.word(what)?;
        let number = read_number(word, what)?;
        if number >= limit {
            return Err(Unread::Below(what, limit, word));
        }
        Ok(number)
    }

    // All words that are left, which are numbers.
    pub fn numbers(&self, alloc: Global, what: &'static str) -> Result<Vec<u64>, Unread<'a>>
        ensures value { IfOk result (λ numbers. numbers.items ≡ map (λ word. digits_value 10 word.now) self.now.words.now) }
        ensures right { OnOk result (All (λ word. IsNumber word.now) self.now.words.now) }
    {
        let mut numbers = Vec::new(alloc);
        for word in self.words {
            numbers.push(read_number(*word, what)?)?;
        }
        Ok(numbers)
    }

    // The same, into a list with room for them: they stand in place of what it had.
    pub fn fill_numbers<const N: usize>(
        &self,
        numbers: &mut ArrayVec<u64, N>,
        what: &'static str,
    ) -> Result<(), Unread<'a>>
        requires { length self.now.words.now ≤ N }
        ensures value { OnOk result (numbers.new.items ≡ map (λ word. digits_value 10 word.now) self.now.words.now) }
        ensures right { OnOk result (All (λ word. IsNumber word.now) self.now.words.now) }
    {
        numbers.clear();
        for word in self.words {
            numbers.push(read_number(*word, what)?);
        }
        Ok(())
    }

    // There is room for the words that are left.
    pub fn at_most(&self, most: usize, what: &'static str) -> Result<(), Unread<'a>>
        ensures { IsOk result ↔ (length self.now.words.now ≤ most) }
    {
        if self.words.len() > most {
            return Err(Unread::NoRoom(most, what));
        }
        Ok(())
    }

    // No word is left.
    pub fn end(&self) -> Result<(), Unread<'a>>
        ensures { IsOk result ↔ (words_left self.now ≡ []) }
    {
        match self.words.first() {
            None => Ok(()),
            Some(word) => Err(Unread::Expected("the end of the line", Found::Word(*word))),
        }
    }
}
