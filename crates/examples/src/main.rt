// Runs the papers' worked examples over the library. A case is a line of standard input, and the head of the input says
// how cases are written. For each case the program prints its name and what the operation gives: the answer in decimal,
// bytes in hexadecimal. The file stdout holds the output that the program must give. It is typed from the papers or
// follows from them.
#![tactic(auto)]

mod elements; // elements.rt: products and reciprocals
mod input; // input.rt: names and operands of cases
mod keys; // keys.rt: key files, cloaking and verdicts
mod pairs; // pairs.rt: letters on pairs, and products of matrices
mod show; // show.rt: pairs and matrices on standard output
mod words; // words.rt: word files, read and written

use field::Field;
use std::io::Input;

// The byte that fills an output before it is lent.
pub(crate) const FILL: u8 = 0xAA;

// Runs the operation that a letter names. An operand that the case does not have is empty.
fn run(rt: &impl Print, operation: u8, a: &[u8], b: &[u8], c: &[u8], d: &[u8]) {
    match operation {
        b'P' => elements::product(rt, a, b, Field::Gf32),
        b'p' => elements::product(rt, a, b, Field::Gf256),
        b'I' => elements::reciprocal(rt, a, Field::Gf32),
        b'i' => elements::reciprocal(rt, a, Field::Gf256),
        b'T' => pairs::limits(rt),
        b'E' => pairs::letters(rt, a, b, c, d),
        b'M' => pairs::matrices(rt, a, b),
        b'W' => words::read(rt, a),
        b'A' => words::letter(rt, a, b),
        b'S' => words::second(rt, a),
        b'H' => words::handles(rt, a, b),
        b'X' => words::shorter(rt, a, b),
        b'K' => keys::read(rt, a),
        b'N' => keys::write(rt, a, b, c, d),
        b'C' => keys::cloaks(rt, a, b, c),
        b'V' => keys::verdict(rt, a, b, c),
        b'v' => keys::larger_verdict(rt, a, b),
        _ => words::write(rt, operation, a, b, c),
    }
}

// Runs the case of a line whose name is already printed.
fn operate(rt: &impl Print, operation: u8, line: &[u8]) {
    let mut first = [0u8; 5002];
    let mut second = [0u8; 130];
    let mut third = [0u8; 90];
    let mut fourth = [0u8; 90];
    let a = input::operand(line, 1, &mut first);
    let b = input::operand(line, 2, &mut second);
    let c = input::operand(line, 3, &mut third);
    let d = input::operand(line, 4, &mut fourth);
    run(rt, operation, a, b, c, d);
}

// Runs the case of a line. A line of under two bytes, or one that starts with #, has no case.
fn case(rt: &impl Print, line: &[u8]) {
    match line {
        [b'#', ..] => (),
        [operation, _, rest @ ..] => {
            input::name(rt, rest);
            operate(rt, *operation, line);
        }
        _ => (),
    }
}

fn cases(rt: &impl Print, text: &[u8]) {
    for line in text.split(|b| *b == b'\n') {
        case(rt, line);
    }
}

fn main(rt: HostRuntime) {
    let mut text = [0u8; 16384];
    let n = desk_io::read_full(&mut rt.reader(), &mut text);
    cases(&rt, &text[..n]);
}
