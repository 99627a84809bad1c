// Which kinds a basket takes, and how many lots may be used.
#![tactic(auto)]

ghost use Rattle.std.specs.Prelude.{◌≡◌, ℕ, ◌&&◌};
ghost use Rattle.rule.specs.Value.{Terms};
ghost use Rattle.rule.specs.Baskets.{within};
ghost use Rattle.rule.specs.Day.{terms_of, marks_of};
ghost use Rattle.baskets.specs.Kinds.{KindsOf};
ghost use Rattle.baskets.specs.Marked.{rule_marks};
ghost use Rattle.rule.specs.Allocable.{unmarked, allocable as allocable_of};

use quantities::Lots;

// Yes and no, in a letter each: so the columns of the table stand in line.
const Y: bool = true;

const N: bool = false;

// "The composition of the seven baskets is fixed": a row for each basket, A to G, which says of each kind whether it is taken.
const COMPOSITION: [[bool; 7]; 7] = [
    [Y, N, N, N, N, N, N],
    [Y, Y, N, N, N, N, N],
    [Y, Y, Y, Y, N, N, N],
    [Y, Y, Y, Y, Y, N, N],
    [Y, Y, Y, Y, Y, Y, N],
    [Y, Y, Y, Y, Y, N, Y],
    [Y, Y, Y, Y, Y, Y, Y],
];

// The kinds that a basket takes: its row of the table. There is no basket beyond G, and it takes none. No struct: it would hold the basket's
// number beside the row for its proof alone.
pub fn kinds_of(basket: u64) -> [bool; 7]
    ensures { KindsOf basket result }
{
    if basket > 6 {
        return [N; 7];
    }
    COMPOSITION[basket as usize]
}

// Whether the kind is one of them. A kind is a number, as it stands in the book: a rule of the project.
pub fn is_among(kinds: &[bool; 7], kind: u64) -> bool
    ensures { (k : ℕ) → (t : Terms) → KindsOf k kinds.now → t.kind ≡ kind → result ≡ within k t }
{
    match kind {
        0..=6 => kinds[kind as usize],
        _ => false,
    }
}

// "two marks, 0 or 1: redeemed on the following day, interest paid on the following day". A mark is a number, as it stands in the book: a
// rule of the project.
#[derive(Clone, Copy)]
pub struct Marks {
    redeemed: u64,
    interest: u64,
}

impl Marks {
    // An issue's. They are read here alone.
    pub fn of(issue: &layout::Terms) -> Marks
        ensures { rule_marks result ≡ marks_of issue.now }
    {
        let [_, _, _, _, redeemed, interest] = *issue;
        Marks { redeemed, interest }
    }

    // "An issue is unmarked if both are 0".
    #[tactic(auto, unfolding(rule::specs::Allocable::unmarked))]
    pub fn are_none(self) -> bool
        ensures { result ≡ unmarked (rule_marks self) }
    {
        self.redeemed == 0 && self.interest == 0
    }
}

// Whether an issue is of one of a basket's kinds, and unmarked. A loop over issues reads the basket's kinds once.
pub fn is_eligible(issue: &layout::Terms, kinds: &[bool; 7]) -> bool
    ensures { (k : ℕ) → KindsOf k kinds.now → result ≡ (within k (terms_of issue.now) && unmarked (marks_of issue.now)) }
{
    let [kind, ..] = *issue;
    is_among(kinds, kind) && Marks::of(issue).are_none()
}

// "The window decides the allocable quantity": run 1 has one rule, "runs 2 and 3" another. The runs done are a number: a rule of
// the project.
#[tactic(auto, using(crate::proofs::AllocableLaws::by_window))]
pub fn allocable(runs: u64, marks: Marks, notified: Lots, scheduled: Lots) -> Lots
    ensures { result.0 ≡ allocable_of runs (rule_marks marks) notified.0 scheduled.0 }
{
    let (usable, lots) = match runs {
        0 => (marks.redeemed == 0, notified.min(scheduled)),
        _ => (marks.are_none(), notified),
    };
    if usable { lots } else { Lots(0) }
}
