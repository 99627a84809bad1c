// Why a word is not read, in the words of an error line.
use std::alloc::{AllocError, AllocFailed};
use std::fmt;

// What stands where something else is expected.
#[derive(Clone, Copy)]
pub enum Found<'a> {
    Word(&'a [u8]),
    // digits alone, which are a number of 2^64 or more
    TooLarge(&'a [u8]),
    End,
}

#[derive(Clone, Copy)]
pub enum Unread<'a> {
    // what is expected
    Expected(&'static str, Found<'a>),
    // what is expected below a number, and the word that is none of it
    Below(&'static str, u64, &'a [u8]),
    // how many there is room for, and of what
    NoRoom(usize, &'static str),
    NoMemory,
}

// the bytes of a word that are shown
const SHOWN: usize = 40;

fn start(word: &[u8]) -> &[u8] {
    &word[..word.len().min(SHOWN)]
}

// A word between quotation marks. A byte that is no printable ASCII is shown as in a string of Rust, as \xe9; of a long word its
// start is shown.
#[derive(Clone, Copy)]
struct Quoted<'a>(&'a [u8]);

impl fmt::Display for Quoted<'_> {
    fn fmt<W: fmt::Write>(&self, f: &mut fmt::Formatter<W>) -> fmt::Result {
        let Quoted(word) = *self;
        let start = start(word);
        let dots = if start.len() < word.len() { ".." } else { "" };
        let text = start.escape_ascii();
        write!(f, "'{text}{dots}'")
    }
}

impl fmt::Display for Found<'_> {
    fn fmt<W: fmt::Write>(&self, f: &mut fmt::Formatter<W>) -> fmt::Result {
        match *self {
            Found::Word(word) => {
                let word = Quoted(word);
                write!(f, "{word}")
            }
            Found::TooLarge(word) => {
                let word = Quoted(word);
                write!(f, "{word}, which is 2^64 or more")
            }
            Found::End => f.write_str("the end of the line"),
        }
    }
}

impl fmt::Display for Unread<'_> {
    fn fmt<W: fmt::Write>(&self, f: &mut fmt::Formatter<W>) -> fmt::Result {
        match *self {
            Unread::Expected(what, found) => write!(f, "{what} expected, found {found}"),
            Unread::Below(what, limit, word) => {
                let word = Quoted(word);
                write!(f, "{what} below {limit} expected, found {word}")
            }
            Unread::NoRoom(most, what) => write!(f, "no room for more than {most} {what}"),
            Unread::NoMemory => f.write_str("no memory left"),
        }
    }
}

impl From<AllocError> for Unread<'_> {
    fn from(_error: AllocError) -> Self {
        Unread::NoMemory
    }
}

impl<T: Drop> From<AllocFailed<T>> for Unread<'_> {
    fn from(_error: AllocFailed<T>) -> Self {
        Unread::NoMemory
    }
}
