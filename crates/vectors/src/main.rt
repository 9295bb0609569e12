// Plays each script that an argument names, and prints what the bench prints of it, one after the other. The expected output is that
// of two independent simulators, and with pages that of a third, in simulator/.
#![tactic(auto)]

use std::fs::File;
use std::{env, io};

// A file that cannot be opened is named on standard error, and passed over.
fn play_file(rt: &HostRuntime, name: &str) -> io::Result<()> {
    match File::open(rt, name) {
        Ok(mut file) => play::run_input(&mut file, &mut rt.stdout()),
        Err(error) => eprintln!(rt; "{name}: {error}"),
    }
}

fn main(rt: HostRuntime) -> io::Result<()> {
    for name in env::args(&rt)?.skip(1) {
        if name.len() <= 64 {
            play_file(&rt, name.as_str())?;
        }
    }
    Ok(())
}
