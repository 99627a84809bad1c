// What `--help` is answered: docs/DAYFILE.md in short.
pub const HELP: &str = "usage: allocate [FILE | - | --help] ..
Takes the days of the files through the calls of the library, and writes what each call answers. `-` is standard input; with no
argument a sample day is run. Each file begins with a book of zeros.

A file has one call to a line, words apart by blanks; `#` starts a comment. Numbers are decimal. A basket is a letter, A to G; an
issue is its number or its code.

    day PARTICIPANTS ISSUES                                begins the opening data
    issue CODE KIND PRICE COUPON DAYS REDEEMED INTEREST    one for each issue
    receipt PARTICIPANT ISSUE LOTS                         scheduled receipts, others 0
    pair BASKET DELIVERER RECEIVER                         yesterday's pairs
    open                                                   makes the opening call
    trade SELLER BUYER BASKET YEN
    notice PARTICIPANT ISSUE=LOTS ..
    run PARTICIPANT ..                                     the draw
    close
    show                                                   what stands in the book

Each call is answered by one line, with its records under it:

    opened, traded, noted, closed
    ran MATCHES LINES          then match and line records
    refused NUMBER: WORDS      the library refuses the call, and the book stays
    error LINE: CALL: WORDS    the line cannot be read: what is expected, and what stands there; nothing changes

close writes receipt and pair records, which are lines of tomorrow's file; show writes runs, trades, position, notified, tally and
paired records. docs/DAYFILE.md has the words of each.
";
