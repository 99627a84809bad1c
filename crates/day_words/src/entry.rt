// The entries of a notice.
ghost use Rattle.std.specs.Prelude.{◌≡◌, ℕ, ◌<◌, ◌≤◌, length, slice_index, IfOk, OnOk};
ghost use Rattle.std.specs.List.{All};
ghost use Rattle.words.specs.Lines.{words_left};
ghost use Rattle.day_words.specs.Named.{IsEntry, AreEntries, codes_in};

use crate::codes::Codes;
use arrayvec::ArrayVec;
use std::alloc::Global;
use words::{Found, Line, Unread, read_number};

const ENTRY: &str = "ISSUE=LOTS";

// "ISSUE=LOTS". Where a part is missing, an error line shows the whole word, and else the part that is wrong.
pub fn read_entry<'w>(codes: &Codes<'_>, word: &'w [u8]) -> Result<(u64, u64), Unread<'w>>
    ensures { IfOk result (λ entry. IsEntry (codes_in codes.now.bytes.now) word.now entry.0 entry.1) }
{
    let Some((issue, lots)) = words::split_once(word, b'=') else {
        return Err(Unread::Expected(ENTRY, Found::Word(word)));
    };
    if issue.is_empty() || lots.is_empty() {
        return Err(Unread::Expected(ENTRY, Found::Word(word)));
    }
    Ok((codes.read_issue(issue)?, read_number(lots, "lots")?))
}

// "ISSUE=LOTS ..": the issues and the lots of all words that are left.
pub fn entries<'w>(
    alloc: Global,
    codes: &Codes<'_>,
    line: &Line<'w>,
) -> Result<(Vec<u64>, Vec<u64>), Unread<'w>>
    ensures { IfOk result (λ lists. AreEntries (codes_in codes.now.bytes.now) (words_left line.now) lists.0.items lists.1.items) }
{
    let mut issues = Vec::new(alloc);
    let mut lots = Vec::new(alloc);
    for word in line.words {
        let (issue, count) = read_entry(codes, *word)?;
        issues.push(issue)?;
        lots.push(count)?;
    }
    Ok((issues, lots))
}

// The same, into two lists with room for them: they stand in place of what these had.
pub fn fill_entries<'w, const N: usize>(
    codes: &Codes<'_>,
    line: &Line<'w>,
    issues: &mut ArrayVec<u64, N>,
    lots: &mut ArrayVec<u64, N>,
) -> Result<(), Unread<'w>>
    requires { length line.now.words.now ≤ N }
    ensures { OnOk result (AreEntries (codes_in codes.now.bytes.now) (words_left line.now) issues.new.items lots.new.items) }
{
    issues.clear();
    lots.clear();
    for word in line.words {
        let (issue, count) = read_entry(codes, *word)?;
        issues.push(issue);
        lots.push(count);
    }
    Ok(())
}

#[cfg(test)]
mod tests {
    use super::*;
    use std::test::Fail;

    #[test]
    fn entries_of_a_notice(rt: HostRuntime) -> Result<(), Fail> {
        let codes = Codes {
            bytes: b"JP0000000018",
        };
        let words = [b"JP0000000018=5".as_slice(), b"3=0".as_slice()];
        let line = Line::new(&words);
        let lists = entries(rt.alloc(), &codes, &line).ok();
        let issues = vec![in rt.alloc(); 0u64, 3]?;
        let lots = vec![in rt.alloc(); 5u64, 0]?;
        assert!(rt; lists == Some((issues, lots)));
        Ok(())
    }
}
