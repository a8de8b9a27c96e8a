// Judges slips in files. Each slip has three arguments: key, digest and signature. Each slip gets a line, in order. Its
// test run: under the plain key a slip that opens, one that does not, one without a digest, and a slip of the larger
// field under its own key.
#![tactic(auto)]

ghost use Rattle.std.specs.Prelude.{◌<◌};

use std::rt::{Env, Files};

// Judges the slip whose files are the three arguments from a place on.
fn slip(rt: &(impl Files + Env + Print + Eprint), at: usize)
    requires { at < 18446744073709551614 }
{
    let mut key = [0u8; desk_line::KEY_ROOM];
    let mut digest = [0u8; desk_line::DIGEST_ROOM];
    let mut word = [0u8; desk_line::WORD_ROOM];
    let k = desk_io::file(rt, at, &mut key);
    let d = desk_io::file(rt, at + 1, &mut digest);
    let w = desk_io::file(rt, at + 2, &mut word);
    desk_io::tell(rt, desk_slip::slip_line(&key, &digest, &word, k, d, w));
}

// Judges the slips of so many arguments, the program's name included.
fn slips(rt: &(impl Files + Env + Print + Eprint), arguments: usize) {
    for i in 0..arguments / 3 {
        slip(rt, 3 * i + 1);
    }
}

fn main(rt: HostRuntime) {
    let rt = &rt;
    let n = desk_io::arg_count(rt);
    if n % 3 == 1 {
        slips(rt, n);
    } else {
        desk_io::misused(
            rt,
            b"slips takes names of files: key, digest and signature of each slip\n",
        );
    }
}
