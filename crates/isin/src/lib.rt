// Codes of issues: ISO 6166 and its check digit, the codes of Japan, and their order. A code is 12 cells.
#![tactic(auto)]

ghost use Rattle.std.specs.Prelude.{◌≡◌, ◌+◌, ◌*◌, ◌/◌, ◌%◌, ◌≤◌, length, max};
ghost use Rattle.lists.specs.Parts.{grid};
ghost use Rattle.rule.specs.Day.{code_size};
ghost use Rattle.rule.specs.Isin.{is_isin, is_code, before, codes_right};
ghost use Rattle.isin.specs.Code.{of_japan};
ghost use Rattle.isin.specs.Summing.{Within, with_digit, with_capital};

// A code begins with the capitals of its country. Its check digit is the last character.
const COUNTRY: usize = 2;

const CHECK_DIGIT: usize = 11;

// Two sums of the digits met so far: with the last one doubled, and with the last one as it is. A digit that follows moves
// each digit to the other weight, so both are kept, and a code is read once, from its first character on.
#[derive(Clone, Copy)]
struct Sums {
    twice: u64,
    once: u64,
}

impl Sums {
    fn with_digit(self, d: u64) -> Sums
        requires { (d ≤ 9) × Within self 1000 }
        ensures { (result ≡ with_digit self d) × Within result (max self.twice self.once + 9) }
    {
        let doubled = crossed(d);
        Sums {
            twice: doubled + self.once,
            once: d + self.twice,
        }
    }

    // A capital stands for two digits, A for 10 to Z for 35. Both are added at once, so the sums do not change places. With
    // ones = value - 10 * tens, the digits of the doubled ones make 2 * ones - 9 * (fives - 2 * tens).
    fn with_capital(self, c: u64) -> Sums
        requires { (65 ≤ c) × (c ≤ 90) × Within self 900 }
        ensures { (result ≡ with_capital self c) × Within result (max self.twice self.once + 18) }
    {
        let value = c - 55;
        let tens = value / 10;
        let fives = value / 5;
        Sums {
            twice: self.twice + 2 * value - tens - 9 * fives,
            once: self.once + value - 8 * tens,
        }
    }
}

// The digits of a doubled digit, added.
fn crossed(d: u64) -> u64
    requires { d ≤ 9 }
    ensures { result ≡ 2 * d / 10 + 2 * d % 10 }
{
    if d < 5 { 2 * d } else { 2 * d - 9 }
}

// Is it a code of ISO 6166, of any country? Two capitals, nine digits or capitals, and the check digit, which makes the sum a
// multiple of ten.
pub fn is_isin(code: &[u64]) -> bool
    ensures { result ≡ is_isin code.now }
{
    if code.len() != 12 {
        return false;
    }
    let mut sums = Sums { twice: 0, once: 0 };
    for (i, c) in code.iter().enumerate() {
        sums = if i >= COUNTRY && (48..=57).contains(c) {
            sums.with_digit(*c - 48)
        } else if i < CHECK_DIGIT && (65..=90).contains(c) {
            sums.with_capital(*c)
        } else {
            return false;
        };
    }
    sums.once % 10 == 0
}

// "the first two bytes of a code are JP"
fn of_japan(code: &[u64]) -> bool
    ensures { result ≡ of_japan code.now }
{
    let jp = b"JP";
    code.len() >= 2 && code[0] == u64::from(jp[0]) && code[1] == u64::from(jp[1])
}

// Is it a code of an issue? The start is compared before the check digit is worked out.
pub fn is_code(code: &[u64]) -> bool
    ensures { result ≡ is_code code.now }
{
    of_japan(code) && is_isin(code)
}

// Does a stand before b, by the first cell in which they differ? `cmp` passes equal cells in groups: by `<`, one by one, soundness
// of a day of 11 participants takes more instructions than the fast reference, 20,117 for 19,884.
pub fn stands_before(a: &[u64], b: &[u64]) -> bool
    ensures { result ≡ before a.now b.now }
{
    a.cmp(b).is_lt()
}

// Is each of the codes one, and do they rise strictly? They stand one after the other.
pub fn codes_right(cells: &[u64]) -> bool
    ensures { result ≡ codes_right (grid cells.now 0 code_size (length cells.now / code_size) code_size) }
{
    let (codes, _) = cells.as_chunks::<12>();
    codes.iter().all(|code| is_code(code)) && codes.is_sorted_by(|a, b| stands_before(a, b))
}
