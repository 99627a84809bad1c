// The issues of a filled match: the lots of each are booked, used and listed. One loop does all three, since a loop for each took
// longer.
ghost use Rattle.run_post.specs.Issues.{WriteIssueAsks, WriteIssueGives, WriteIssuesAsks, WriteIssuesGives};

use crate::booking;
use crate::listing::Lists;
use matching::Match;
use quantities::Lots;

// One issue's lots, if there are any. Book, lots used and lists are no struct: the callers read the book between the writes, and lend a row of
// all lots used.
fn write_issue(
    book: &mut [u64],
    used: &mut [u64],
    lists: &mut Lists,
    m: Match,
    issue: usize,
    lots: Lots,
)
    requires { WriteIssueAsks book.old used.old lists.old m issue lots.0 }
    ensures { WriteIssueGives book.old used.old lists.old m issue lots.0 book.new used.new lists.new }
{
    if lots == Lots(0) {
        return;
    }
    booking::move_lots(book, m, issue, lots);
    used[issue] = used[issue] + lots.0;
    lists.add_line(issue as u64, lots);
}

// All issues' lots; "issues rise within a match". `used` is the deliverer's row of lots used.
pub fn write_issues(book: &mut [u64], used: &mut [u64], lists: &mut Lists, m: Match, lots: &[u64])
    requires { WriteIssuesAsks book.old used.old lists.old m lots.now }
    ensures { WriteIssuesGives book.old used.old lists.old m lots.now book.new used.new lists.new }
{
    for (issue, taken) in lots.iter().enumerate() {
        write_issue(&mut *book, &mut *used, &mut *lists, m, issue, Lots(*taken));
    }
}
