// Matching: in one basket, who delivers how much to whom, in the order of filling.
#![tactic(auto)]

ghost use Rattle.std.specs.Prelude.{◌≡◌, [], ◌∷◌, length, false};
ghost use Rattle.lists.specs.Tables.{up_to};
ghost use Rattle.lists.specs.Folds.{foldl};
ghost use Rattle.rule.specs.Matching.{meet as meet_of, with, preferential as preferential_of, turn as turn_of, deliverers, plan as plan_of};
ghost use Rattle.matching.specs.Plans.{left_of, SameBuffers, Planned, MeetAsks, TurnAsks, TurnsAsks, pair_marks, meet_pairs, MeetPairsOfAsks, MeetPreferentialAsks, PlanAsks};

use arrayvec::ArrayVec;
use quantities::Yen;

// Who delivers to whom by number, and the matched yen.
#[derive(Clone, Copy)]
pub struct Match {
    pub deliverer: usize,
    pub receiver: usize,
    pub amount: Yen,
    pub preferential: bool,
}

// What stands in a plan where no match stands yet.
impl Default for Match {
    ghost is_default = { λ m. m.amount.0 ≡ 0 };

    fn default() -> Self {
        Match {
            deliverer: 0,
            receiver: 0,
            amount: Yen(0),
            preferential: false,
        }
    }
}

// "At most participants - 1 matches in a basket", of at most 12 participants.
pub type Plan = ArrayVec<Match, 11>;

// The positions left, signs dropped, owed to the clearing house and due from it, by participant; and the matches made.
#[derive(Drop)]
struct Left<'a> {
    owed: &'a mut [u64],
    due: &'a mut [u64],
    made: &'a mut Plan,
}

impl Left<'_> {
    // Deliverer d and receiver r are matched for the smaller of their positions left, if it is above 0.
    fn meet(&mut self, preferential: bool, d: usize, r: usize)
        requires { MeetAsks preferential self.old d r }
        ensures left { left_of self.new ≡ meet_of preferential (left_of self.old) (d, r) }
        ensures same { SameBuffers self.old self.new }
    {
        let amount = self.owed[d].min(self.due[r]);
        if amount == 0 {
            return;
        }
        self.owed[d] = self.owed[d] - amount;
        self.due[r] = self.due[r] - amount;
        self.made.push(Match {
            deliverer: d,
            receiver: r,
            amount: Yen(amount),
            preferential,
        });
    }

    // Deliverer d meets the receivers of its pairs by number, until nothing is left.
    fn meet_pairs_of(&mut self, marks: &[u64], d: usize)
        requires { MeetPairsOfAsks marks.now self.old d }
        ensures left { left_of self.new ≡ meet_pairs marks.now (left_of self.old) (with (up_to (length self.old.owed.now)) d) }
        ensures same { SameBuffers self.old self.new }
    {
        for r in 0..self.due.len() {
            if self.owed[d] == 0 {
                break;
            }
            let place = layout::MOST_PARTICIPANTS * d + r;
            // a mark is a number, as it stands in the book: a rule of the project
            if marks[place] == 1 {
                self.meet(true, d, r);
            }
        }
    }

    // "Run 1 first takes yesterday's pairs", "by deliverer number, then receiver number"
    fn meet_preferential(&mut self, runs: u64, marks: &[u64])
        requires { MeetPreferentialAsks runs marks.now self.old }
        ensures left { left_of self.new ≡ preferential_of runs (pair_marks marks.now (length self.old.owed.now)) self.old.owed.now self.old.due.now }
        ensures same { SameBuffers self.old self.new }
    {
        if runs > 0 {
            return;
        }
        for d in 0..self.owed.len() {
            self.meet_pairs_of(marks, d);
        }
    }

    // "Each meets receivers in the drawn order for the smaller amount, until nothing is left"
    fn meet_drawn(&mut self, draw: &[u64], d: usize)
        requires { TurnAsks draw.now self.old d }
        ensures left { left_of self.new ≡ foldl (meet_of false) (left_of self.old) (with draw.now d) }
        ensures same { SameBuffers self.old self.new }
    {
        for r in draw {
            if self.owed[d] == 0 {
                break;
            }
            self.meet(false, d, *r as usize);
        }
    }

    // A deliverer's turn: "each deliverer's drawn ones go by larger matched amount, ties in drawn order"
    fn turn(&mut self, draw: &[u64], d: usize)
        requires { TurnAsks draw.now self.old d }
        ensures left { left_of self.new ≡ turn_of draw.now (left_of self.old) d }
        ensures same { SameBuffers self.old self.new }
    {
        let before = self.made.len();
        self.meet_drawn(draw, d);
        let made = self.made.as_mut_slice();
        ranking::sort_by_key(&mut made[before..], |m| m.amount.0);
    }

    // "deliverers go from the larger position left (ties: smaller number)"
    fn turns(&mut self, draw: &[u64])
        requires { TurnsAsks draw.now self.old }
        ensures left { left_of self.new ≡ foldl (turn_of draw.now) (left_of self.old) (deliverers self.old.owed.now) }
        ensures same { SameBuffers self.old self.new }
    {
        let mut order = [0u64; layout::MOST_PARTICIPANTS];
        let owed = &mut *self.owed;
        ranking::rank(owed, &mut order);
        for d in &order[..self.owed.len()] {
            self.turn(draw, *d as usize);
        }
    }
}

// The matches of a basket in the order of filling: what stood in the plan goes. The positions are used up.
pub fn plan(
    runs: u64,
    marks: &[u64],
    draw: &[u64],
    owed: &mut [u64],
    due: &mut [u64],
    plan: &mut Plan,
)
    requires { PlanAsks marks.now draw.now owed.old due.old }
    ensures { Planned (plan_of runs (pair_marks marks.now (length owed.old)) draw.now owed.old due.old) plan.new }
{
    plan.clear();
    let mut left = Left {
        owed,
        due,
        made: plan,
    };
    left.meet_preferential(runs, marks);
    left.turns(draw);
}
