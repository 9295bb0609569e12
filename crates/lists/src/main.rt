// Lists of calls from standard input, played on the library: after each call its number, the phase and the count of stores, and after
// each list the image and the payload. A list is
//   a byte, the plan's count; eight widths of two bytes, the high one first; a byte each for the page size and for grouped, 0 for no;
//   24 bytes of rights, the rider's eight, the gym's and the service's;
//   two bytes, the high one first: the length of the image, which is all 77 before format; two more: the length of the calls;
//   and the calls, as crates/recovery/specs/Encoding.antt has them; but kinds 16, 17 and 18 are reads, by service, a rider and the gym,
//   of which the number and copy A are printed.
// The lists of this crate are random ones (simulator/lists.py), and the expected output is a simulator's, by other hands.
#![tactic(auto)]

ghost use Rattle.std.specs.Prelude.{◌+◌, ◌<◌, ◌≤◌};

use input::read_full;
use model::{Phase, Plan, Rights, Role};
use replay::call;
use replay::entry::{Entries, Entry, Kind};
use std::io::Write;
use std::{array, fmt, io};
use store::{Device, number_of};

// What stands before a list's calls: the plan, and the lengths of the image and of the calls.
#[derive(Drop)]
struct Head {
    plan: Plan,
    image: u16,
    calls: u16,
}

// The number at a place, the high byte first.
fn number_at(bytes: &[u8; 47], at: usize) -> u16
    requires { at + 1 < 47 }
{
    u16::from_be_bytes([bytes[at], bytes[at + 1]])
}

fn rights_at(bytes: &[u8; 47], from: usize) -> [u8; 8]
    requires { from ≤ 39 }
{
    array::from_fn(|unit| bytes[from + unit])
}

impl From<&[u8; 47]> for Head {
    fn from(bytes: &[u8; 47]) -> Head {
        let plan = Plan {
            count: bytes[0].into(),
            widths: array::from_fn(|unit| number_at(bytes, 1 + 2 * unit)),
            page: bytes[17].into(),
            grouped: bytes[18] != 0,
            rights: Rights {
                rider: rights_at(bytes, 19),
                gym: rights_at(bytes, 27),
                service: rights_at(bytes, 35),
            },
        };
        Head {
            plan,
            image: number_at(bytes, 43),
            calls: number_at(bytes, 45),
        }
    }
}

// A phase as the lists print it.
#[derive(Drop)]
struct Shown(Phase);

impl fmt::Display for Shown {
    fn fmt<W: fmt::Write>(&self, f: &mut fmt::Formatter<W>) -> fmt::Result {
        match self.0 {
            Phase::Cold => write!(f, "Cold"),
            Phase::Ready => write!(f, "Ready"),
            Phase::Writing { unit, made } => write!(f, "Writing {unit} {made}"),
            Phase::Recovering {
                unit,
                made,
                direction,
            } => write!(f, "Recovering {unit} {made} {direction:?}"),
            Phase::Grouping { write, made } => write!(f, "Grouping {write} {made}"),
        }
    }
}

fn word(kind: Kind) -> &'static str {
    match kind {
        Kind::Begin(_) => "begin",
        Kind::Cut => "cut",
        Kind::Wake => "wake",
        Kind::Ride => "ride",
        Kind::Group => "group",
        Kind::PaidRide => "paid",
        Kind::Step => "step",
    }
}

// Bytes, each after a space, to the end of a line. Each goes out in one piece: the writer keeps nothing, and `write!` makes two pieces of
// it, or three.
fn say_bytes<W: Write>(out: &mut W, bytes: &[u8]) -> io::Result<()> {
    let digits = b"0123456789abcdef";
    for byte in bytes {
        let (high, low) = (usize::from(byte / 16), usize::from(byte % 16));
        out.write_all(&[b' ', digits[high], digits[low]])?;
    }
    writeln!(out)
}

// Who asks, if a kind is a read's.
fn reader_of(kind: u8) -> Option<Role> {
    match kind {
        16 => Some(Role::Service),
        17 => Some(Role::Rider),
        18 => Some(Role::Gym),
        _ => None,
    }
}

fn say_read<W: Write>(
    out: &mut W,
    device: Device,
    image: &[u8],
    role: Role,
    unit: u16,
) -> io::Result<()> {
    let number = number_of(device.check_read(image, role, unit));
    write!(out, "read {number}")?;
    say_bytes(out, device.read(image, role, unit))
}

// One call, and what it came to.
fn called<W: Write>(
    out: &mut W,
    device: Device,
    image: &mut [u8],
    entry: Entry,
) -> io::Result<Device> {
    let word = word(Kind::from(entry.kind));
    let after = call(device, image, entry);
    let phase = Shown(after.device.phase);
    writeln!(
        out,
        "{word} {} {phase} {}",
        after.number, after.device.stores
    )?;
    Ok(after.device)
}

// The calls, and reads, which leave the device as it is.
fn play<W: Write>(
    out: &mut W,
    formatted: Device,
    image: &mut [u8],
    calls: &[u8],
) -> io::Result<Device> {
    let mut device = formatted;
    for entry in (Entries { bytes: calls }) {
        match reader_of(entry.kind) {
            Some(role) => say_read(out, device, image, role, entry.unit)?,
            None => device = called(out, device, image, entry)?,
        }
    }
    Ok(device)
}

fn list<W: Write>(out: &mut W, plan: Plan, image: &mut [u8], calls: &[u8]) -> io::Result<()> {
    let started = Device::start(plan);
    writeln!(out, "start {}", started.number)?;
    let formatted = started.device.format(image);
    writeln!(out, "format {}", formatted.number)?;
    let last = play(out, formatted.device, image, calls)?;
    write!(out, "image")?;
    say_bytes(out, image)?;
    write!(out, "payload")?;
    say_bytes(out, &last.payload)
}

// The lists in a text, one after the other. Bytes at its end that are too few for one are none.
fn lists<W: Write>(out: &mut W, text: &[u8]) -> io::Result<()> {
    let mut left = text;
    // No `for`: a list's head tells how long it is, and so where the next begins.
    while let Some((head, more)) = left.split_first_chunk::<47>() {
        let head = Head::from(head);
        let Some((calls, more)) = more.split_at_checked(usize::from(head.calls)) else {
            return Ok(());
        };
        let mut image = [0x77; 65536];
        list(out, head.plan, &mut image[..usize::from(head.image)], calls)?;
        left = more;
    }
    Ok(())
}

fn main(rt: HostRuntime) -> io::Result<()> {
    let mut text = [0; 65536];
    let count = read_full(&mut rt.reader(), &mut text)?;
    lists(&mut io::writer(&rt), &text[..count])
}
