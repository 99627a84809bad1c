// A day: what its opening is given, the book that its calls are made on, and the line that each first word is.
use arrayvec::ArrayVec;
use day_lines::Failure;
use opening_data::OpeningData;
use std::io;
use words::{Found, Line, Unread};

// the first words that there are
const CALLS: &str = "day, issue, receipt, pair, open, trade, notice, run, close or show";

// The words of a line that are looked at, more than any call takes: the first one too many is among them.
const WORDS: usize = day_lines::ROOM + 8;

// what stands between words
const BLANKS: &[u8] = b" \t\r";

#[derive(Drop)]
pub struct Day {
    data: OpeningData,
    book: [u64; layout::LENGTH],
}

// "`refused NUMBER: WORDS`"; "`error LINE: CALL: WORDS`"
fn write_failure(
    rt: &impl Print,
    number: u64,
    call: &[u8],
    failure: Failure<'_>,
) -> io::Result<()> {
    match failure {
        Failure::Unread(unread) => {
            let call = call.escape_ascii();
            println!(rt; "error {number}: {call}: {unread}")
        }
        Failure::Refused(refusal) => println!(rt; "refused {}: {refusal}", u64::from(refusal)),
        Failure::Unwritten => Ok(()),
    }
}

impl Day {
    pub fn new() -> Day {
        Day {
            data: OpeningData::new(0, 0),
            book: [0; layout::LENGTH],
        }
    }

    // The line of a first word; none, where it is no such word.
    fn call<'a>(
        &mut self,
        rt: &impl Print,
        first: &[u8],
        line: Line<'a>,
    ) -> Option<Result<(), Failure<'a>>> {
        let answer = match first {
            b"day" => self.data.day(line).map_err(Failure::Unread),
            b"issue" => self.data.issue(line).map_err(Failure::Unread),
            b"receipt" => self.data.receipt(line).map_err(Failure::Unread),
            b"pair" => self.data.pair(line).map_err(Failure::Unread),
            b"open" => day_lines::open(rt, &self.data, &mut self.book, line),
            b"trade" => day_lines::trade(rt, &mut self.book, line),
            b"notice" => day_lines::notice(rt, &mut self.book, line),
            b"run" => day_lines::run(rt, &mut self.book, line),
            b"close" => day_lines::close(rt, &self.book, line),
            b"show" => day_lines::show(rt, &self.book, line),
            _ => return None,
        };
        Some(answer)
    }

    // "one call to a line". Not inlined into `answer`: an empty line would take the stack that a run takes.
    #[inline(never)]
    fn answer_text(&mut self, rt: &impl Print, number: u64, text: &[u8]) -> io::Result<()> {
        let mut words = ArrayVec::<&[u8], WORDS>::new();
        words::fill_words(text, BLANKS, &mut words);
        let Some((first, rest)) = words.as_slice().split_first() else {
            return Ok(());
        };
        match self.call(rt, *first, Line::new(rest)) {
            Some(Ok(())) => Ok(()),
            Some(Err(failure)) => write_failure(rt, number, *first, failure),
            None => {
                let unread = Unread::Expected(CALLS, Found::Word(*first));
                println!(rt; "error {number}: {unread}")
            }
        }
    }

    // "`#` starts a comment"; "empty lines count for nothing"
    pub fn answer(&mut self, rt: &impl Print, number: u64, line: &[u8]) -> io::Result<()> {
        let text = line.split(|byte| *byte == b'#').next().unwrap_or(line);
        if text.iter().all(|byte| BLANKS.contains(byte)) {
            return Ok(());
        }
        self.answer_text(rt, number, text)
    }
}
