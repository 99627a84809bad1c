// The words and numbers of a line. A line is bytes, which need not be text.
#![tactic(auto)]

ghost use Rattle.std.specs.Prelude.{◌≡◌, ◌≢◌, ◌^◌, ◌<◌, ◌++◌, ◌∷◌, map, IfOk, SomeIff, MatchOption};
ghost use Rattle.std.specs.List.{All};
ghost use Rattle.std.specs.Str.Parse.{IsNumeral, digits_value};
ghost use Rattle.words.specs.Words.{words_between};

mod fill;
mod line;
mod unread;

pub use fill::fill_words;
pub use line::{Line, read_number};
use std::alloc::{AllocError, Global};
pub use unread::{Found, Unread};

// The words of a text, which blanks stand between.
pub fn split<'a>(alloc: Global, text: &'a [u8], blanks: &[u8]) -> Result<Vec<&'a [u8]>, AllocError>
    ensures { IfOk result (λ words. map (λ word. word.now) words.items ≡ words_between blanks.now text.now) }
{
    text.split(|byte| blanks.contains(byte))
        .filter(|word| !word.is_empty())
        .collect(alloc)
}

// What stands before the first such byte, and after it.
pub fn split_once(text: &[u8], byte: u8) -> Option<(&[u8], &[u8])>
    ensures { MatchOption result (All (λ b. b ≢ byte) text.now)
        (λ parts. (text.now ≡ parts.0.now ++ (byte ∷ parts.1.now)) × All (λ b. b ≢ byte) parts.0.now) }
{
    let at = text.iter().position(|other| *other == byte)?;
    Some((&text[..at], &text[at + 1..]))
}

// A number is decimal, digits alone, below 2^64: `parse` would also take a + before it.
pub fn number(word: &[u8]) -> Option<u64>
    ensures { SomeIff result (IsNumeral 10 word.now × (digits_value 10 word.now < 2 ^ 64)) (digits_value 10 word.now) }
{
    let word = str::from_utf8(word).ok()?;
    if word.starts_with('+') {
        return None;
    }
    word.parse().ok()
}

#[cfg(test)]
mod tests {
    use super::*;
    use std::test::Fail;

    #[test]
    fn words_between_blanks(rt: HostRuntime) -> Result<(), Fail> {
        let words = split(rt.alloc(), b"\tno  end\r", b" \t\r")?;
        let expected = vec![in rt.alloc(); b"no".as_slice(), b"end".as_slice()]?;
        assert_eq!(rt; words, expected);
        Ok(())
    }

    #[test]
    fn numbers_of_a_line(rt: HostRuntime) -> Result<(), Fail> {
        let words = [b"7".as_slice(), b"012".as_slice()];
        let line = Line::new(&words);
        let numbers = line.numbers(rt.alloc(), "number").ok();
        let expected = vec![in rt.alloc(); 7u64, 12]?;
        assert!(rt; numbers == Some(expected));
        Ok(())
    }
}
