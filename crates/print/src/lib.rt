// Text on standard output. What cannot be written is left out, and nothing says so.
#![tactic(auto)]

pub fn text(rt: &impl Print, bytes: &[u8]) {
    let _ = rt.write_all(bytes);
}

// Prints a space and a number in decimal.
pub fn number(rt: &impl Print, n: usize) {
    let _ = print!(rt; " {n}");
}

// Prints a space and a byte in hexadecimal.
pub fn byte(rt: &impl Print, x: u8) {
    let _ = print!(rt; " {x:02x}");
}

// Prints bytes in hexadecimal, each after a space.
pub fn hex(rt: &impl Print, bytes: &[u8]) {
    for x in bytes {
        byte(rt, *x);
    }
}

// Prints one of two texts.
pub fn choice(rt: &impl Print, first: bool, a: &[u8], b: &[u8]) {
    text(rt, if first { a } else { b });
}

// Prints a colon, a space and an answer.
pub fn answer(rt: &impl Print, found: u8) {
    let _ = print!(rt; ": {found}");
}

// Prints an answer and bytes, and ends the line.
pub fn line(rt: &impl Print, found: u8, bytes: &[u8]) {
    answer(rt, found);
    hex(rt, bytes);
    text(rt, b"\n");
}

// Prints the first n bytes of an output, and whether all bytes after them are `fill`, and ends the line.
pub fn output(rt: &impl Print, out: &[u8], n: usize, fill: u8) {
    if out.len() < n {
        return;
    }
    hex(rt, &out[..n]);
    let kept = out[n..].iter().all(|x| *x == fill);
    choice(rt, kept, b" kept\n", b" changed\n");
}
