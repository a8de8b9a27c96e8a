// Lists how often every two strands of a word cross, on standard input or in a file. Its test run: the word 00 02 00,
// b1 b1.
#![tactic(auto)]

fn main(rt: HostRuntime) {
    desk_tables::crossings(&rt);
}
