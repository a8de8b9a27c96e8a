// Prints how many words of a length end in each list of four labels; without an argument for length 2.
#![tactic(auto)]

fn main(rt: HostRuntime) {
    desk_tables::spread(&rt);
}
