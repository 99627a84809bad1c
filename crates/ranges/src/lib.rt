// The ranges of opening data, tested on cells that are lent: parts of the book, or the arrays of an opening.
#![tactic(auto)]

ghost use Rattle.std.specs.Prelude.{◌≡◌, ℕ, ◌+◌, ◌-◌, ◌*◌, ◌/◌, ◌^◌, ◌<◌, ◌≤◌, Bool, map, length, nat_le};
ghost use Rattle.lists.specs.Tables.{table};
ghost use Rattle.lists.specs.Parts.{grid};
ghost use Rattle.rule.specs.Sound.{sizes_fit, at_most, pairs_fit};
ghost use Rattle.ranges.specs.Ranges.{SquareOf, SquareFitsAsks, PairsFitAsks, issue_fits, terms_in_range, all_pass, row_passes, none_on_oneself, square_fits};

use lists::Rows;

// The largest number that has not the highest bit.
pub const LOW_BITS: u64 = 9223372036854775807;

// "A day has 2 to 12 participants and 1 to 32 issues"
#[tactic(auto, unfolding(rule::specs::Sound::sizes_fit))]
pub fn sizes_fit(participants: u64, issues: u64) -> bool
    ensures { result ≡ sizes_fit participants issues }
{
    (2..=12).contains(&participants) && (1..=32).contains(&issues)
}

// "kind, price .. 1,000 to 30,000, coupon .. 0 to 20,000, days of accrued interest (0 to 366), and two marks, 0 or 1": one issue's.
#[tactic(auto, unfolding(rule::specs::Sound::terms_fit, rule::specs::Sound::marks_fit))]
fn terms_are_in_range(terms: &layout::Terms) -> bool
    ensures { result ≡ issue_fits terms.now }
{
    let [kind, price, coupon, days, redeemed, interest] = *terms;
    kind <= 6
        && (1000..=30000).contains(&price)
        && coupon <= 20000
        && days <= 366
        && redeemed <= 1
        && interest <= 1
}

// The same of every issue.
pub fn terms_fit(issues: &[layout::Terms]) -> bool
    ensures { result ≡ terms_in_range (length issues.now) issues.now }
{
    issues.iter().all(terms_are_in_range)
}

// The highest bit is set exactly where the number is above the bound: what many numbers give is joined by `or`, and
// tested once. A bound is no type of its own: it is a number of one call, shown small there.
pub fn above(x: u64, bound: u64) -> u64
    requires { bound ≤ 9223372036854775807 }
    ensures { nat_le result 9223372036854775807 ≡ nat_le x bound }
{
    x | x.wrapping_add(LOW_BITS - bound)
}

// The bits that are made of the cells, joined by `or`: no more than the lowest k where those of each cell are.
pub fn joined<F: Fn(u64) -> u64>(cells: &[u64], bits_of: F) -> u64
    requires { F.IsAlwaysCallable bits_of }
    ensures { (k : ℕ) (test : ℕ → Bool) → ((x y : ℕ) → x < 2 ^ 64 → F.post bits_of x y → nat_le y (2 ^ k - 1) ≡ test x) → nat_le result (2 ^ k - 1) ≡ all_pass test cells.now }
{
    let mut bits = 0;
    for cell in cells {
        bits |= bits_of(*cell);
    }
    bits
}

// Is each cell at most the bound?
pub fn row_at_most(row: &[u64], bound: u64) -> bool
    requires { bound ≤ 9223372036854775807 }
    ensures { result ≡ all_pass (λ cell. nat_le cell bound) row.now }
{
    joined(row, |cell| above(cell, bound)) <= LOW_BITS
}

// The same of each row.
pub fn rows_at_most(rows: &Rows, bound: u64) -> bool
    requires { bound ≤ 9223372036854775807 }
    ensures { result ≡ at_most bound rows.now.n rows.now.m (grid rows.now.cells.now 0 rows.now.apart rows.now.n rows.now.m) }
{
    (0..rows.n).all(|p| {
        let o = rows.apart * p;
        row_at_most(&rows.cells[o..o + rows.m], bound)
    })
}

// The bits of marks, each 0 or 1 where they are no more than the lowest.
fn bits_of(marks: &[u64]) -> u64
    ensures { nat_le result 1 ≡ all_pass (λ mark. nat_le mark 1) marks.now }
{
    joined(marks, |mark| mark)
}

// The same of four marks of a row.
fn bits_of_four(row: &[u64], at: usize) -> u64
    requires { at + 4 ≤ length row.now }
    ensures { nat_le result 1 ≡ row_passes (λ mark. nat_le mark 1) row.now at 4 }
{
    row[at] | row[at + 1] | row[at + 2] | row[at + 3]
}

// The same of a row: one of 4 to 12 marks is its first four, its last four and, where these do not meet, the four after the first. Without
// a loop, since every call tests a book's soundness.
fn bits_of_row(row: &[u64]) -> u64
    ensures { nat_le result 1 ≡ all_pass (λ mark. nat_le mark 1) row.now }
{
    if !(4..=12).contains(&row.len()) {
        return bits_of(row);
    }
    let first = bits_of_four(row, 0);
    let last = bits_of_four(row, row.len() - 4);
    if row.len() <= 8 {
        return first | last;
    }
    let middle = bits_of_four(row, 4);
    first | middle | last
}

// Pair marks of one basket: n rows of n, a stride apart.
#[derive(Drop)]
struct Square<'a> {
    marks: &'a [u64],
    stride: usize,
    n: usize,
    ghost rows: { SquareOf marks.now stride n },
}

impl<'a> Square<'a> {
    // "0 or 1 by basket, deliverer, receiver". Rows that stand one after the other are gone through as one.
    fn at_most_one(&self) -> bool
        ensures { result ≡ at_most 1 self.now.n self.now.n (grid self.now.marks.now 0 self.now.stride self.now.n self.now.n) }
    {
        if self.n == self.stride {
            return bits_of(self.marks) <= 1;
        }
        let mut bits = 0;
        for row in self.marks.chunks_exact(self.stride) {
            bits |= bits_of_row(&row[..self.n]);
        }
        bits <= 1
    }

    // "never a participant with itself"
    fn none_on_oneself(&self) -> bool
        ensures { result ≡ none_on_oneself self.now.marks.now 0 self.now.stride self.now.n }
    {
        // By place: pieces of a stride would ask that it is above 0.
        let mut bits = 0;
        for p in 0..self.n {
            bits |= self.marks[self.stride * p + p];
        }
        bits == 0
    }
}

// One basket's pair marks, at the front of its cells.
fn square_fits(square: &[u64], stride: usize, n: usize) -> bool
    requires { SquareFitsAsks square.now stride n }
    ensures { result ≡ square_fits square.now 0 stride n }
{
    let square = Square {
        marks: &square[..stride * n],
        stride,
        n,
    };
    square.at_most_one() && square.none_on_oneself()
}

// The pair marks of the seven baskets, each basket's so many cells after the last one's.
pub fn pairs_fit(marks: &[u64], apart: usize, stride: usize, n: usize) -> bool
    requires { PairsFitAsks marks.now apart stride n }
    ensures { result ≡ pairs_fit n (table 7 (λ k. grid marks.now (apart * k) stride n n)) }
{
    (0..layout::BASKETS).all(|k| {
        let at = apart * k;
        square_fits(&marks[at..at + apart], stride, n)
    })
}
