// What an opening is given, gathered line by line until `open` makes the call. The comments quote docs/DAYFILE.md.
#![tactic(auto)]

ghost use Rattle.std.specs.Prelude.{◌≡◌, ◌+◌, ◌*◌, ◌<◌, ◌≤◌, min, length, slice_range, IfOk, OnErr, OnOk};
ghost use Rattle.reply.specs.Answers.{told};
ghost use Rattle.words.specs.Lines.{words_left, TakesNumbers};
ghost use Rattle.opening_data.specs.Gathered.{empty, opening_of, DayLine, Added, IssueLine, ReceiptLine, PairLine};
ghost use Rattle.rule.specs.Day.{baskets, code_size};
ghost use Rattle.rule.specs.Layout.{most_participants, most_issues, lots_size, square};

use day_words::{CODES, Codes, next_basket_of_day};
use layout::{BASKETS, CODE, MOST_ISSUES, MOST_PARTICIPANTS, SQUARE, TERM};
use reply::Refusal;
use words::{Found, Line, Unread};

const TERMS: usize = TERM * MOST_ISSUES;

pub const RECEIPTS: usize = MOST_ISSUES * MOST_PARTICIPANTS;

pub const PAIRS: usize = SQUARE * BASKETS;

// Tables with room for the largest day: they begin with what the opening is lent, one row after the other. `listed` counts the
// issues that have a code and terms.
#[derive(Drop)]
pub struct OpeningData {
    pub participants: u64,
    pub issues: u64,
    pub listed: usize,
    pub codes: [u8; CODES],
    pub terms: [u64; TERMS],
    pub receipts: [u64; RECEIPTS],
    pub pairs: [u64; PAIRS],
}

// Where the lots of a participant in an issue stand.
fn receipt_place(participant: usize, issues: usize, issue: usize) -> usize
    requires { (participant < most_participants) × (issues ≤ most_issues) × (issue < issues) }
    ensures place { result ≡ participant * issues + issue }
    ensures within { result < lots_size }
{
    participant * issues + issue
}

// Where the mark of a pair stands.
fn pair_place(participants: usize, basket: usize, deliverer: usize, receiver: usize) -> usize
    requires { (participants ≤ most_participants) × (basket < baskets) × (deliverer < participants) × (receiver < participants) }
    ensures place { result ≡ (basket * participants + deliverer) * participants + receiver }
    ensures within { result < square * baskets }
{
    let row = basket * participants + deliverer;
    row * participants + receiver
}

// "KIND PRICE COUPON DAYS REDEEMED INTEREST"
fn next_terms<'a>(line: &mut Line<'a>) -> Result<[u64; TERM], Unread<'a>>
    ensures { IfOk result (λ terms. TakesNumbers terms (words_left line.old) (words_left line.new)) }
{
    Ok([
        line.number("kind")?,
        line.number("price")?,
        line.number("coupon")?,
        line.number("days")?,
        line.number("redeemed")?,
        line.number("interest")?,
    ])
}

impl OpeningData {
    pub fn new(participants: u64, issues: u64) -> OpeningData
        ensures { result ≡ empty participants issues }
    {
        OpeningData {
            participants,
            issues,
            listed: 0,
            codes: [0; CODES],
            terms: [0; TERMS],
            receipts: [0; RECEIPTS],
            pairs: [0; PAIRS],
        }
    }

    // "day PARTICIPANTS ISSUES": what was gathered before counts no more.
    pub fn day<'a>(&mut self, mut line: Line<'a>) -> Result<(), Unread<'a>>
        ensures read { OnOk result (DayLine (words_left line.entry) self.old self.new) }
        ensures unread { OnErr result (self.new ≡ self.old) }
    {
        let participants = line.number("participants")?;
        let issues = line.number("issues")?;
        line.end()?;
        *self = OpeningData::new(participants, issues);
        Ok(())
    }

    // One more issue, behind those that are listed.
    fn add_issue<'a>(&mut self, code: &[u8], terms: &[u64; TERM]) -> Result<(), Unread<'a>>
        requires { length code.now ≡ code_size }
        ensures added { OnOk result (Added code.now terms.now self.old self.new) }
        ensures kept { OnErr result (self.new ≡ self.old) }
    {
        let i = self.listed;
        if i >= MOST_ISSUES {
            return Err(Unread::NoRoom(MOST_ISSUES, "issues"));
        }
        let codes = &mut self.codes[CODE * i..CODE * i + CODE];
        codes.copy_from_slice(code);
        let rows = &mut self.terms[TERM * i..TERM * i + TERM];
        rows.copy_from_slice(terms);
        self.listed = i + 1;
        Ok(())
    }

    // "issue CODE KIND PRICE COUPON DAYS REDEEMED INTEREST"
    pub fn issue<'a>(&mut self, mut line: Line<'a>) -> Result<(), Unread<'a>>
        ensures read { OnOk result (IssueLine (words_left line.entry) self.old self.new) }
        ensures unread { OnErr result (self.new ≡ self.old) }
    {
        let code = line.word("code")?;
        if code.len() != CODE {
            return Err(Unread::Expected("code of 12 characters", Found::Word(code)));
        }
        let terms = next_terms(&mut line)?;
        line.end()?;
        self.add_issue(code, &terms)
    }

    // The codes of the issues that are listed.
    fn listed_codes(&self) -> Codes<'_>
        ensures { result.bytes.now ≡ slice_range self.now.codes 0 (code_size * min self.now.listed most_issues) }
    {
        let listed = self.listed.min(MOST_ISSUES);
        Codes {
            bytes: &self.codes[..CODE * listed],
        }
    }

    // "receipt PARTICIPANT ISSUE LOTS"
    pub fn receipt<'a>(&mut self, mut line: Line<'a>) -> Result<(), Unread<'a>>
        ensures read { OnOk result (ReceiptLine (words_left line.entry) self.old self.new) }
        ensures unread { OnErr result (self.new ≡ self.old) }
    {
        let participant = line.below("participant", self.participants)?;
        let issue = self
            .listed_codes()
            .next_issue_below(&mut line, self.issues)?;
        let lots = line.number("lots")?;
        line.end()?;
        if participant >= MOST_PARTICIPANTS as u64 {
            return Err(Unread::NoRoom(MOST_PARTICIPANTS, "participants"));
        }
        if self.issues > MOST_ISSUES as u64 {
            return Err(Unread::NoRoom(MOST_ISSUES, "issues"));
        }
        let place = receipt_place(participant as usize, self.issues as usize, issue as usize);
        self.receipts[place] = lots;
        Ok(())
    }

    // "pair BASKET DELIVERER RECEIVER"
    pub fn pair<'a>(&mut self, mut line: Line<'a>) -> Result<(), Unread<'a>>
        ensures read { OnOk result (PairLine (words_left line.entry) self.old self.new) }
        ensures unread { OnErr result (self.new ≡ self.old) }
    {
        let participants = self.participants;
        let basket = next_basket_of_day(&mut line)?;
        let deliverer = line.below("deliverer", participants)?;
        let receiver = line.below("receiver", participants)?;
        line.end()?;
        if participants > MOST_PARTICIPANTS as u64 {
            return Err(Unread::NoRoom(MOST_PARTICIPANTS, "participants"));
        }
        let place = pair_place(
            participants as usize,
            basket as usize,
            deliverer as usize,
            receiver as usize,
        );
        self.pairs[place] = 1;
        Ok(())
    }

    // Makes the call. Sizes for which there is no room are refused, whatever is lent with them.
    pub fn open(&self, book: &mut [u64]) -> Result<(), Refusal>
        ensures { (told result, book.new) ≡ opening_of self.now book.old }
    {
        let n = self.participants.min(MOST_PARTICIPANTS as u64) as usize;
        let m = self.issues.min(MOST_ISSUES as u64) as usize;
        let listed = self.listed.min(MOST_ISSUES);
        let codes = &self.codes[..CODE * listed];
        let terms = &self.terms[..TERM * listed];
        let receipts = &self.receipts[..n * m];
        let pairs = &self.pairs[..BASKETS * n * n];
        allocation::open(
            self.participants,
            self.issues,
            codes,
            terms,
            receipts,
            pairs,
            book,
        )
    }
}
