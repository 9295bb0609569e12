// Loads each curve text that an argument names, and prints its path, its number, a digest of the table after it, and drives over the
// table. The table is full of sevens before each load. First come the tables and scratches that are refused whatever the text.
#![tactic(auto)]

use brake::drive_over;
use curve::load;
use input::read_full;
use model::refusals::Refusal;
use std::fs::File;
use std::io::Write;
use std::{env, io};

// One number for a whole table, its order included.
fn digest(table: &[u16]) -> u16 {
    table.iter().fold(0, |sum: u16, entry| {
        ((31 * u32::from(sum) + u32::from(*entry)) % 65521) as u16
    })
}

// Prints what a load came to: 0, or the refusal's number.
fn say_load<W: Write>(writer: &mut W, loaded: Result<(), Refusal>) -> io::Result<()> {
    let number = loaded.map_or_else(Refusal::number, |()| 0);
    writeln!(writer, "load {number}")
}

// Prints the drive over a table, or the refusal's number.
fn say_drive<W: Write>(writer: &mut W, table: &[u16], level: u16, rate: u16) -> io::Result<()> {
    let number = drive_over(table, level, rate).unwrap_or_else(Refusal::number);
    writeln!(writer, "drive {number}")
}

// Prints what a load of a text leaves.
fn load_text<W: Write>(writer: &mut W, text: &[u8]) -> io::Result<()> {
    let mut table = [7; 1280];
    let mut scratch = [0; 64];
    say_load(writer, load(text, &mut table, &mut scratch))?;
    writeln!(writer, "table {}", digest(&table))?;
    for (level, rate) in [(1, 0), (1, 255), (20, 0), (20, 255)] {
        say_drive(writer, &table, level, rate)?;
    }
    Ok(())
}

// Twenty lines of the form have fewer than 8,000 bytes, so that what is cut off of a text of more than 70,000 changes nothing.
// A file that cannot be opened is named on standard error, and passed over.
fn load_file(rt: &HostRuntime, path: &str) -> io::Result<()> {
    let mut file = match File::open(rt, path) {
        Ok(file) => file,
        Err(error) => return eprintln!(rt; "{path}: {error}"),
    };
    let mut writer = rt.stdout();
    writeln!(writer, "curve {path}")?;
    let mut text = [0; 70000];
    let count = read_full(&mut file, &mut text)?;
    load_text(&mut writer, &text[..count])
}

// Tables that are not 1,280 long, a scratch that is under 64, and a drive's refusals in their order.
fn say_refusals<W: Write>(writer: &mut W) -> io::Result<()> {
    let mut long = [7; 1281];
    let mut exact = [7; 1280];
    let mut scratch = [0; 64];
    say_drive(writer, &long, 0, 256)?;
    say_drive(writer, &exact, 0, 256)?;
    say_drive(writer, &exact, 20, 256)?;
    say_load(writer, load(b"", &mut long, &mut scratch))?;
    say_load(writer, load(b"", &mut exact, &mut [0; 63]))?;
    say_load(writer, load(b"", &mut [7; 1279], &mut scratch))
}

// The argument is a path of at most 4,096 bytes; one that is longer isn't opened.
fn load_argument(rt: &HostRuntime, path: &str) -> io::Result<()> {
    if path.len() > 4096 {
        return eprintln!(rt; "curves: a path of more than 4096 bytes");
    }
    load_file(rt, path)
}

fn main(rt: HostRuntime) -> io::Result<()> {
    say_refusals(&mut rt.stdout())?;
    for path in env::args(&rt)?.skip(1) {
        load_argument(&rt, path.as_str())?;
    }
    Ok(())
}
