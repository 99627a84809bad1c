// The forced issue of a match in run 3.
#![tactic(auto)]

ghost use Rattle.std.specs.Prelude.{◌≡◌, ◌*◌, ◌≤◌, List, ◌∷◌, map, ℕ, length};
ghost use Rattle.lists.specs.Tests.{pick};
ghost use Rattle.rule.specs.Day.{terms_of, marks_of};
ghost use Rattle.rule.specs.Filling.{eligible, forced_issue};
ghost use Rattle.baskets.specs.Kinds.{KindsOf};
ghost use Rattle.forced.specs.Choice.{noted, takes, fifth_among, least_of, BestOf, FifthOf};

use quantities::Lots;

// The kind of the ten-year issues: a number, as it stands in the book, which is a rule of the project.
const TEN_YEAR: u64 = 2;

// Going down the issues: the one with the most notified lots so far, which has some.
#[derive(Clone, Copy)]
struct Best {
    most: Lots,
    issue: usize,
}

// Going down the issues: how many were met, up to five, and the last of these.
#[derive(Clone, Copy)]
struct Fifth {
    met: u64,
    issue: usize,
}

// The fewest notified lots with which the issue met is the best: some, and no fewer than the best so far has.
fn least(best: Option<Best>) -> Lots
    ensures { result.0 ≡ least_of best }
{
    best.map_or(Lots(1), |b| b.most)
}

// "the unmarked issue of this basket with the deliverer's most notified lots .. (ties: smaller ISIN)": the issue met is smaller
// than those before. Its terms are read only where its lots are the most so far.
fn with_notified(
    best: Option<Best>,
    i: usize,
    issue: &layout::Terms,
    notified: Lots,
    kinds: &[bool; 7],
) -> Option<Best>
    ensures { (k : ℕ) → (n : ℕ → ℕ) → (l : List ℕ) → KindsOf k kinds.now → notified.0 ≡ n i → BestOf n l best → BestOf n (pick (takes k (terms_of issue.now) (marks_of issue.now)) (i ∷ l) l) result }
{
    if notified >= least(best) && baskets::is_eligible(issue, kinds) {
        return Some(Best {
            most: notified,
            issue: i,
        });
    }
    best
}

// The unmarked issue of the basket with the most notified lots; none where none has any.
fn most_notified(issues: &[layout::Terms], kinds: &[bool; 7], notified: &[u64]) -> Option<Best>
    requires { length notified.now ≡ length issues.now }
    ensures { (k : ℕ) → KindsOf k kinds.now → BestOf (noted notified.now) (eligible k (map terms_of issues.now) (map marks_of issues.now)) result }
{
    let mut best = None;
    // By number, which is the answer: of issues and notified lots side by side each item would be a tuple in a tuple.
    for i in (0..issues.len()).rev() {
        best = with_notified(best, i, &issues[i], Lots(notified[i]), kinds);
    }
    best
}

// "the fifth largest ISIN .. Fewer than five: the smallest".
fn with_issue(fifth: Option<Fifth>, i: usize) -> Option<Fifth>
    ensures { (l : List ℕ) → FifthOf l fifth → FifthOf (i ∷ l) result }
{
    match fifth {
        None => Some(Fifth { met: 1, issue: i }),
        Some(f) => {
            if f.met < 5 {
                return Some(Fifth {
                    met: f.met + 1,
                    issue: i,
                });
            }
            fifth
        }
    }
}

// "the fifth largest ISIN among unmarked kind 2 issues of the basket. With no unmarked kind 2 issue there .. among all unmarked ones".
fn fifth_largest(issues: &[layout::Terms], kinds: &[bool; 7]) -> usize
    ensures { (k : ℕ) → KindsOf k kinds.now → result ≡ fifth_among (map terms_of issues.now) (eligible k (map terms_of issues.now) (map marks_of issues.now)) }
{
    let mut ten = None;
    let mut any = None;
    for (i, issue) in issues.iter().enumerate().rev() {
        if baskets::is_eligible(issue, kinds) {
            let [kind, ..] = *issue;
            if kind == TEN_YEAR {
                ten = with_issue(ten, i);
            }
            any = with_issue(any, i);
        }
    }
    match ten.or(any) {
        Some(fifth) => fifth.issue,
        None => 0,
    }
}

// The issue that is forced in run 3. "With none above 0": only then are the issues gone through again.
pub fn forced_issue(issues: &[layout::Terms], basket: u64, notified: &[u64]) -> usize
    requires { length notified.now ≡ length issues.now }
    ensures { result ≡ forced_issue basket (map terms_of issues.now) (map marks_of issues.now) notified.now }
{
    let kinds = baskets::kinds_of(basket);
    match most_notified(issues, &kinds, notified) {
        Some(best) => best.issue,
        None => fifth_largest(issues, &kinds),
    }
}
