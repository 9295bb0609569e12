// The bench program of document 01: plays the script on standard input, and prints.
#![tactic(auto)]

use std::io;

fn main(rt: HostRuntime) -> io::Result<()> {
    play::run_input(&mut rt.reader(), &mut rt.stdout())
}
