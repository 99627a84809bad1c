// Runs days: with no argument a sample of our own, else each file that an argument names, `-` for standard input. What such a
// file has and what is written for it is in docs/DAYFILE.md, which the comments quote.
#![tactic(auto)]

mod day;
mod help;
mod sample;

use arrayvec::ArrayVec;
use day::Day;
use std::env::FillError;
use std::fs::File;
use std::io;
use std::io::{ErrorKind, Read, Write};
use std::rt::Env;
use words::Unread;

// the bytes that a line has room for
const ROOM: usize = 4096;

// A line whose end has not come yet.
#[derive(Drop)]
struct BegunLine {
    number: u64,
    bytes: ArrayVec<u8, ROOM>,
    // more has come than there is room for
    over: bool,
}

impl BegunLine {
    fn append(&mut self, piece: &[u8]) {
        if self.bytes.try_extend_from_slice(piece).is_err() {
            self.over = true;
        }
    }

    // The line has its end: it is answered, and the next one begins.
    fn end(&mut self, rt: &HostRuntime, day: &mut Day) {
        let number = self.number;
        // what cannot be written is lost, and the next line is answered all the same
        let _ = if self.over {
            let unread = Unread::NoRoom(ROOM, "bytes");
            println!(rt; "error {number}: {unread}")
        } else {
            day.answer(rt, number, self.bytes.as_slice())
        };
        self.number = number.wrapping_add(1);
        self.bytes.clear();
        self.over = false;
    }

    // The next bytes of a source.
    fn take(&mut self, rt: &HostRuntime, day: &mut Day, text: &[u8]) {
        for (i, piece) in text.split(|byte| *byte == b'\n').enumerate() {
            // pieces stand on both sides of each end of a line
            if i > 0 {
                self.end(rt, day);
            }
            self.append(piece);
        }
    }
}

// A day from a book of zeros: the lines of a source, to its end or to a read that fails.
fn run_day<S: Read + Drop>(rt: &HostRuntime, mut source: S) {
    let mut day = Day::new();
    let mut line = BegunLine {
        number: 1,
        bytes: ArrayVec::new(),
        over: false,
    };
    let mut text = [0u8; 4096];
    // nothing says that a source ends: more turns than any takes
    for _ in 0..u64::MAX {
        match source.read(&mut text) {
            Ok(0) => break,
            Ok(n) => line.take(rt, &mut day, &text[..n]),
            Err(error) => {
                if error.kind() != ErrorKind::Interrupted {
                    break;
                }
            }
        }
    }
    line.end(rt, &mut day);
}

fn run_file(rt: &HostRuntime, path: &str) -> io::Result<()> {
    let file = File::open(rt, path)?;
    run_day(rt, file);
    Ok(())
}

// What an argument asks for. A file's name is UTF-8 where it can be opened.
fn run_argument(rt: &HostRuntime, name: &[u8]) -> io::Result<()> {
    if name == b"-".as_slice() {
        run_day(rt, rt.stdin());
        return Ok(());
    }
    if name == b"--help".as_slice() {
        return print!(rt; "{}", help::HELP);
    }
    match str::from_utf8(name) {
        Ok(path) => match run_file(rt, path) {
            Ok(()) => Ok(()),
            Err(error) => eprintln!(rt; "{path}: {error}"),
        },
        Err(_) => {
            let named = rt.stderr().write_all(name);
            let told = eprintln!(rt; ": a file's name has to be UTF-8");
            named.and(told)
        }
    }
}

fn main(rt: HostRuntime) {
    let mut name = [0u8; 4096];
    // place by place: `env::args` fails where a name is not UTF-8
    for i in 1..usize::MAX {
        let _ = match rt.arg(i, &mut name) {
            Ok(n) => run_argument(&rt, &name[..n]),
            Err(FillError::TooLong) => run_argument(&rt, b""),
            Err(FillError::NotPresent) => {
                if i == 1 {
                    run_day(&rt, sample::DAY.as_bytes());
                }
                return;
            }
        };
    }
}
