// A case is its operation, a space, its name, and its operands, each after a colon. An operand is bytes in hexadecimal,
// each after a space. 00*36 stands for 36 bytes 00.
ghost use Rattle.std.specs.Prelude.{◌≤◌};

// Part k of a text that colons separate, counted from 0. It is empty if the text has fewer parts.
fn part(text: &[u8], k: usize) -> &[u8] {
    text.split(|b| *b == b':').nth(k).unwrap_or(&[])
}

// Prints the name of a case, which its line has behind the operation and a space.
pub(crate) fn name(rt: &impl Print, rest: &[u8]) {
    print::text(rt, part(rest, 0));
}

// The value of a hexadecimal digit, whose letters are in lower case. Any other character gives 16.
fn digit(c: u8) -> usize
    ensures { result ≤ 16 }
{
    match c {
        b'0'..=b'9' => (c - 48) as usize,
        b'a'..=b'f' => (c - 87) as usize,
        _ => 16,
    }
}

fn byte(high: u8, low: u8) -> u8 {
    ((16 * digit(high) + digit(low)) % 256) as u8
}

// The decimal number at the front of a text. If it is longer than four digits, only the last four count.
fn decimal(text: &[u8]) -> usize {
    let mut value = 0;
    for c in text {
        let d = digit(*c);
        if 9 < d {
            break;
        }
        value = (10 * value + d) % 10000;
    }
    value
}

// Writes a byte `times` times from place `from` on, up to the output's end, and returns the place after the last one.
fn fill(out: &mut [u8], from: usize, byte: u8, times: usize) -> usize {
    let end = out.len().min(from.saturating_add(times));
    match out.get_mut(from..end) {
        Some(part) => {
            part.fill(byte);
            end
        }
        None => from,
    }
}

// How often a byte is to be written: once, or as often as a * and a number after it say.
fn times(text: &[u8]) -> usize {
    match text {
        [b'*', number @ ..] => decimal(number),
        _ => 1,
    }
}

// Writes the byte at the front of a text to an output, as often as the text says, and returns the place after it. A
// text that has fewer than three bytes, or does not begin with a space, gives no byte.
fn put(text: &[u8], out: &mut [u8], from: usize) -> usize {
    match text {
        [b' ', high, low, rest @ ..] => fill(out, from, byte(*high, *low), times(rest)),
        _ => from,
    }
}

// Writes operand k, counted from 1, to the front of an output, and returns the number of its bytes.
fn read(line: &[u8], k: usize, out: &mut [u8]) -> usize {
    let text = part(line, k);
    let mut n = 0;
    for i in 0..text.len() {
        n = put(&text[i..], out, n);
    }
    n
}

// The first n bytes, or all bytes if there are fewer.
fn front(bytes: &[u8], n: usize) -> &[u8] {
    bytes.get(..n).unwrap_or(bytes)
}

// The bytes of operand k, written into `room`.
pub(crate) fn operand<'a>(line: &[u8], k: usize, room: &'a mut [u8]) -> &'a [u8] {
    let n = read(line, k, room);
    front(room, n)
}

// The first byte, or 0 if there is none.
pub(crate) fn first(bytes: &[u8]) -> u8 {
    bytes.first().copied().unwrap_or(0)
}
