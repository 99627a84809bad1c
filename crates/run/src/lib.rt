// A run: "returns its counts and writes two lists".
#![tactic(auto)]

ghost use Rattle.std.specs.Prelude.{◌≡◌, ◌==◌, count_by};
ghost use Rattle.rule.specs.Calls.{each_once};
ghost use Rattle.rule.specs.Layout.{run_of};
ghost use Rattle.reply.specs.Answers.{told_run};
ghost use Rattle.rule.proofs.BookLaws.{SoundBook};
ghost use Rattle.run.specs.Checked.{run_sound};

mod whole;

use reply::{Counts, Refusal};

// The cells of the most matches, and of the most lines.
const MATCH_CELLS: usize = layout::MATCH * layout::MOST_MATCHES;

const LINE_CELLS: usize = layout::LINE * layout::MOST_LINES;

// How many times the draw names the participant.
fn times_named(draw: &[u64], participant: u64) -> usize
    ensures { result ≡ count_by (λ named. named == participant) draw.now }
{
    draw.iter().filter(|named| **named == participant).count()
}

// "the draw .. name[s] each participant once"
fn names_each_once(draw: &[u64], participants: u64) -> bool
    ensures { result ≡ each_once draw.now participants }
{
    draw.len() as u64 == participants && (0..participants).all(|p| times_named(draw, p) == 1)
}

// In a sound book.
fn run_sound(
    book: &mut [u64],
    draw: &[u64],
    matches: &mut [u64],
    lines: &mut [u64],
) -> Result<Counts, Refusal>
    requires { SoundBook book.old }
    ensures { (told_run result, (book.new, matches.new, lines.new)) ≡ run_sound book.old draw.now matches.old lines.old }
{
    if book[layout::RUNS] >= 3 {
        return Err(Refusal::ThreeRunsDone);
    }
    if !names_each_once(draw, book[layout::PARTICIPANTS]) {
        return Err(Refusal::WrongDraw);
    }
    if matches.len() < MATCH_CELLS {
        return Err(Refusal::ShortList);
    }
    if lines.len() < LINE_CELLS {
        return Err(Refusal::ShortList);
    }
    let counts = whole::run(book, draw, matches, lines);
    Ok(counts)
}

// A run, "basket by basket, A first": it "returns its counts and writes two lists" that are lent, "entries past the counts stay", and the book
// as it is afterwards. A refused one leaves book and lists as they were.
pub fn run(
    book: &mut [u64],
    draw: &[u64],
    matches: &mut [u64],
    lines: &mut [u64],
) -> Result<Counts, Refusal>
    ensures { (told_run result, (book.new, matches.new, lines.new)) ≡ run_of book.old draw.now matches.old lines.old }
{
    if !sound::is_sound(book) {
        return Err(Refusal::UnsoundBook);
    }
    run_sound(book, draw, matches, lines)
}
