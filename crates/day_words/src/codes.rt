// The codes of a day's issues.
ghost use Rattle.std.specs.Prelude.{◌≡◌, ◌↔◌, ◌*◌, ◌%◌, ◌<◌, length, map, IfOk, IsTrue, OnErr};
ghost use Rattle.words.specs.Lines.{IsNumber, Takes, words_left};
ghost use Rattle.day_words.specs.Named.{MayBeCode, IsFirstPlace, Names, codes_in};
ghost use Rattle.rule.specs.Day.{code_size};
ghost use Rattle.rule.specs.Layout.{most_issues};

use layout::{CODE, MOST_ISSUES};
use words::{Line, Unread, read_number};

const ISSUE: &str = "issue number or code";

// the bytes of the codes of the largest day
pub const CODES: usize = CODE * MOST_ISSUES;

// One code after the other, `CODE` bytes each.
#[derive(Clone, Copy)]
pub struct Codes<'a> {
    pub bytes: &'a [u8],
}

// "a word of 12 that begins with a capital"
fn may_be_code(word: &[u8]) -> bool
    ensures { IsTrue result ↔ MayBeCode word.now }
{
    word.len() == CODE && matches!(word[0], b'A'..=b'Z')
}

// The codes that stand in a book, a byte to a cell; zeros after those of the day.
pub fn codes_of(cells: &[u64]) -> [u8; CODES]
    requires { length cells.now ≡ code_size * most_issues }
    ensures { result ≡ map (λ cell. cell % 256) cells.now }
{
    let mut bytes = [0; CODES];
    for (i, cell) in cells.iter().enumerate() {
        bytes[i] = (*cell % 256) as u8;
    }
    bytes
}

impl<'a> Codes<'a> {
    // Where a code stands.
    pub fn place(&self, word: &[u8]) -> Option<usize>
        ensures { IsFirstPlace (codes_in self.now.bytes.now) word.now result }
    {
        let (codes, _) = self.bytes.as_chunks::<CODE>();
        for (i, code) in codes.iter().enumerate() {
            if code.as_slice() == word {
                return Some(i);
            }
        }
        None
    }

    // "An issue is its number or its code (a word of 12 that begins with a capital)." A code that is none of these is passed on
    // as 32, which no issue is.
    pub fn read_issue<'w>(&self, word: &'w [u8]) -> Result<u64, Unread<'w>>
        ensures named { IfOk result (Names (codes_in self.now.bytes.now) word.now) }
        ensures unread { OnErr result (¬ (MayBeCode word.now) × ¬ (IsNumber word.now)) }
    {
        if may_be_code(word) {
            return Ok(self.place(word).unwrap_or(MOST_ISSUES) as u64);
        }
        read_number(word, ISSUE)
    }

    // The next word, which is an issue.
    pub fn next_issue<'w>(&self, line: &mut Line<'w>) -> Result<u64, Unread<'w>>
        ensures { IfOk result (λ n. Takes (λ word. Names (codes_in self.now.bytes.now) word n) (words_left line.old) (words_left line.new)) }
    {
        let word = line.word(ISSUE)?;
        self.read_issue(word)
    }

    // The next word, which is an issue below a limit.
    pub fn next_issue_below<'w>(&self, line: &mut Line<'w>, limit: u64) -> Result<u64, Unread<'w>>
        ensures below { IfOk result (λ n. n < limit) }
        ensures read { IfOk result (λ n. Takes (λ word. Names (codes_in self.now.bytes.now) word n) (words_left line.old) (words_left line.new)) }
    {
        let word = line.word(ISSUE)?;
        let issue = self.read_issue(word)?;
        if issue >= limit {
            return Err(Unread::Below("issue", limit, word));
        }
        Ok(issue)
    }

    // The code of an issue; nothing where there is no such issue.
    pub fn text(&self, issue: usize) -> &'a str {
        let (codes, _) = self.bytes.as_chunks::<CODE>();
        let code = codes.get(issue);
        code.and_then(|code| str::from_utf8(code).ok())
            .unwrap_or("")
    }
}
