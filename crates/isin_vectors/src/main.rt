// Public codes, and damaged ones for each way to be wrong. A line is a code with what `is_isin` and `is_code` say of it, or two
// codes with what `stands_before` and `codes_right` say of them.
#![tactic(auto)]

ghost use Rattle.std.specs.Prelude.{◌<◌, ◌≤◌};

// A piece of a line. What cannot be written is lost, the next piece is written all the same, and the status does not tell, as in
// `allocate`.
fn write(rt: &impl Print, piece: &[u8]) {
    let _ = rt.write_all(piece);
}

// The word if the test holds, else a dash.
fn say(rt: &impl Print, word: &[u8], holds: bool) {
    write(rt, if holds { word } else { b" -" });
}

fn say_of(rt: &impl Print, code: &[u64]) {
    say(rt, b" isin", isin::is_isin(code));
    say(rt, b" code", isin::is_code(code));
    write(rt, b"\n");
}

fn one<const N: usize>(rt: &impl Print, text: &[u8; N])
    requires { N ≤ 24 }
{
    write(rt, text);
    say_of(rt, &text.map(u64::from));
}

fn each(rt: &impl Print, codes: &[&[u8; 12]]) {
    for code in codes {
        one(rt, code);
    }
}

// A code in which one cell is another number than a byte.
fn with_cell(rt: &impl Print, text: &[u8; 12], at: usize, value: u64)
    requires { at < 12 }
{
    let mut code = text.map(u64::from);
    code[at] = value;
    write(rt, text);
    write(rt, b" with ");
    let _ = print!(rt; "{value}");
    say_of(rt, &code);
}

fn two(rt: &impl Print, a: &[u8; 12], b: &[u8; 12]) {
    let codes = [a.map(u64::from), b.map(u64::from)];
    write(rt, a);
    write(rt, b" ");
    write(rt, b);
    say(rt, b" before", isin::stands_before(&codes[0], &codes[1]));
    say(rt, b" right", isin::codes_right(codes.as_flattened()));
    write(rt, b"\n");
}

fn tell_all(rt: &impl Print) {
    // Apple, Microsoft, BAE Systems, SAP, TotalEnergies, Nestle, Treasury Corporation of Victoria
    each(
        rt,
        &[
            b"US0378331005",
            b"US5949181045",
            b"GB0002634946",
            b"DE0007164600",
            b"FR0000120271",
            b"CH0038863350",
            b"AU0000XVGZA3",
        ],
    );
    // Barrick, Heineken, Santander, Ericsson, Eni, Samsung
    each(
        rt,
        &[
            b"CA0679011084",
            b"NL0000009165",
            b"ES0113900J37",
            b"SE0000108656",
            b"IT0003132476",
            b"KR7005930003",
        ],
    );
    // Toyota, Sony, Mitsubishi UFJ, Nintendo, SoftBank, Hitachi; the codes of the paper's worked days, right and wrong
    each(
        rt,
        &[
            b"JP3633400001",
            b"JP3435000009",
            b"JP3902900004",
            b"JP3756600007",
            b"JP3436100006",
            b"JP3788600009",
        ],
    );
    each(rt, &[b"JP0000000018", b"JP0000000026", b"JP0000000019"]);
    // every other check digit, and a letter for it that would fill the sum
    each(
        rt,
        &[
            b"JP3633400000",
            b"JP3633400002",
            b"JP3633400003",
            b"JP3633400004",
            b"JP3633400005",
        ],
    );
    each(
        rt,
        &[
            b"JP3633400006",
            b"JP3633400007",
            b"JP3633400008",
            b"JP3633400009",
            b"JP363340000G",
        ],
    );
    // two digits in the other order: the check digit sees it, save for 9 and 0
    each(rt, &[b"JP6333400001", b"US0373831005", b"JP3092900004"]);
    // a byte that is no digit and no capital, the letter O for the digit 0
    each(
        rt,
        &[
            b"AU0000xVGZA3",
            b"JP36334 0001",
            b"JP36334/0001",
            b"JP36334:0001",
            b"JP36334@0001",
            b"JP36334[0001",
            b"JP36334\xb00001",
            b"JP36334O0001",
        ],
    );
    // a country that is none, or another
    each(
        rt,
        &[
            b"jp3633400001",
            b"Jp3633400001",
            b"3P3633400009",
            b"J33633400008",
            b"JQ3633400000",
            b"KP3633400008",
            b"PJ3633400001",
        ],
    );
    // another length
    one(rt, b"JP363340000");
    one(rt, b"JP36334000016");
    one(rt, b"J");
    one(rt, b"");
    // cells that are no bytes: 256 more than a character, and the largest
    with_cell(rt, b"JP3633400001", 0, 330);
    with_cell(rt, b"JP3633400001", 4, 307);
    with_cell(rt, b"JP3633400001", 11, 305);
    with_cell(rt, b"JP3633400001", 7, 18446744073709551615);
    with_cell(rt, b"JP3633400001", 11, 18446744073709551615);
    // equal, rising, falling, another last byte, one of the two no code
    two(rt, b"JP3633400001", b"JP3633400001");
    two(rt, b"JP3435000009", b"JP3633400001");
    two(rt, b"JP3633400001", b"JP3435000009");
    two(rt, b"JP0000000018", b"JP0000000026");
    two(rt, b"JP3633400001", b"JP3633400002");
    two(rt, b"JP3633400002", b"JP3633400001");
    two(rt, b"DE0007164600", b"JP3633400001");
    two(rt, b"JP3633400001", b"US0378331005");
}

fn main(rt: HostRuntime) {
    tell_all(&rt);
}
