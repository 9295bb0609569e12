// Every place of a power cut, with every byte that the cut can leave, and what the console comes back with: one letter a place.
//
// First a save: a unit of three bytes holds "old", and a save of "new" is cut before each of its nine stores and after the last. o is where
// the old bytes come back whatever the cut leaves, n where the new ones do, m where the cut's byte decides. A line for each page size, the
// page's bytes being alike. Then, with pages of one byte, the same for a cut in the repair of such a save, which was itself cut in copy
// A, and in copy B.
//
// Then a group: units 0 and 1 hold old bytes, and a group of both is cut after each number of its 42 stores. o is where every unit has its
// old bytes again, n where both members have the new ones, and x would be anything else: one member without the other, another unit
// changed, or a record that is left. A line for each page size; and, with pages of one byte, the same for cuts while the members are
// written again: after the record was complete; after it had just passed, so that it is cleaned up first; after a record that did not
// pass; and after a cut in the middle of such a rewriting. These eight lines are a simulator's output, by other hands.
#![tactic(auto)]

ghost use Rattle.std.specs.Prelude.{◌≡◌, ◌+◌, ◌*◌, ◌≤◌, length};

use model::{Inspection, Plan, Role};
use replay::outage;
use rights::service_plan;
use std::io::Write;
use std::{fmt, io};
use store::Device;

// The bytes of a page.
#[derive(Clone, Copy)]
enum Page {
    One = 1,
    Four = 4,
    Eight = 8,
    Sixteen = 16,
}

const PAGES: [Page; 4] = [Page::One, Page::Four, Page::Eight, Page::Sixteen];

// Which bytes come back.
#[derive(Clone, Copy, PartialEq, Eq)]
enum Fate {
    Old,
    New,
    Mixed,
    Neither,
}

impl fmt::Display for Fate {
    fn fmt<W: fmt::Write>(&self, f: &mut fmt::Formatter<W>) -> fmt::Result {
        match self {
            Fate::Old => write!(f, "o"),
            Fate::New => write!(f, "n"),
            Fate::Mixed => write!(f, "m"),
            Fate::Neither => write!(f, "x"),
        }
    }
}

// The fate of a place by those with two bytes of the cut.
fn both(one: Fate, other: Fate) -> Fate {
    match (one, other) {
        (Fate::Neither, _) | (_, Fate::Neither) => Fate::Neither,
        _ if one == other => one,
        _ => Fate::Mixed,
    }
}

// A list of calls as bytes (crates/recovery/specs/Encoding.antt). Behind them are zeros, which are steps.
#[derive(Clone, Copy)]
struct Calls {
    bytes: [u8; 440],
    size: usize,
}

impl Calls {
    fn new() -> Calls
        ensures { result.size ≡ 0 }
    {
        Calls {
            bytes: [0; 440],
            size: 0,
        }
    }

    // A call more: its kind, its unit, and bytes of its own.
    fn call(self, kind: u8, unit: u8, own: &[u8]) -> Calls
        requires { self.size + 5 + length own.now ≤ 440 }
        ensures { result.size ≡ self.size + 5 + length own.now }
    {
        let Calls { mut bytes, size } = self;
        let from = size + 5;
        let end = from + own.len();
        let [high, low] = (own.len() as u16).to_be_bytes();
        bytes[size..from].copy_from_slice(&[kind, 0, unit, high, low]);
        bytes[from..end].copy_from_slice(own);
        Calls { bytes, size: end }
    }

    fn begin(self, unit: u8, payload: &[u8]) -> Calls
        requires { self.size + 5 + length payload.now ≤ 440 }
        ensures { result.size ≡ self.size + 5 + length payload.now }
    {
        self.call(1, unit, payload)
    }

    fn group(self, members: &[u8]) -> Calls
        requires { self.size + 5 + length members.now ≤ 440 }
        ensures { result.size ≡ self.size + 5 + length members.now }
    {
        self.call(5, 0, members)
    }

    fn steps(self, count: usize) -> Calls
        requires { self.size + 5 * count ≤ 440 }
        ensures { result.size ≡ self.size + 5 * count }
    {
        Calls {
            size: self.size + 5 * count,
            ..self
        }
    }

    // A cut that leaves this byte in a page of one, and a wake.
    fn cut(self, m: u8) -> Calls
        requires { self.size + 11 ≤ 440 }
        ensures { result.size ≡ self.size + 11 }
    {
        self.call(2, 0, &[m]).call(3, 0, &[])
    }
}

// The console after these calls, a cut that leaves m in every byte of the page, and the repair.
fn repaired(plan: Plan, page: Page, image: &mut [u8], calls: &[u8], m: u8) -> Device {
    let torn = [m; 16];
    let page = page as usize;
    outage(plan, image, calls, &torn[..page]).device
}

// What comes back of a save after the calls and the cut.
fn save_back(page: Page, calls: &[u8], m: u8) -> Fate {
    let plan = service_plan(&[3], page as u16, false);
    let mut image = [0; 48];
    let device = repaired(plan, page, &mut image, calls, m);
    match device.read(&image, Role::Service, 0) {
        b"old" => Fate::Old,
        b"new" => Fate::New,
        _ => Fate::Neither,
    }
}

// Whether the first units have these bytes.
fn holds(device: Device, image: &[u8], units: [&[u8]; 4]) -> bool {
    (0..4).zip(units).all(|(unit, bytes)| device.read(image, Role::Service, unit) == bytes)
}

// What comes back of a group after the calls and the cut.
fn group_back(page: Page, calls: &[u8], m: u8) -> Fate {
    let plan = service_plan(&[2, 1, 3, 6], page as u16, true);
    let mut image = [0; 192];
    let device = repaired(plan, page, &mut image, calls, m);
    if device.inspect(&image) != Inspection::AllOk {
        return Fate::Neither;
    }
    if holds(device, &image, [&[1, 2], &[3], &[4, 5, 6], &[0; 6]]) {
        return Fate::Old;
    }
    if holds(device, &image, [&[17, 18], &[19], &[4, 5, 6], &[0; 6]]) {
        return Fate::New;
    }
    Fate::Neither
}

// The fate of one place, whatever the cut leaves.
fn letter<F: Fn(u8) -> Fate>(back: F) -> Fate
    requires { F.IsAlwaysCallable back }
{
    (1..=255).fold(back(0), |found, m| both(found, back(m)))
}

// A letter for each place of a cut: after the calls, and after each step that follows them.
fn row<W: Write, F: Fn(&[u8], u8) -> Fate>(
    out: &mut W,
    back: F,
    calls: Calls,
    steps: usize,
) -> io::Result<()>
    requires room { calls.size + 5 * steps ≤ 440 }
    requires callable { F.IsAlwaysCallable back }
{
    for made in 0..=steps {
        let Calls { bytes, size } = calls.steps(made);
        write!(out, "{}", letter(|m| back(&bytes[..size], m)))?;
    }
    writeln!(out)
}

// A begin of "old", its nine steps and a begin of "new".
fn saves() -> Calls
    ensures { result.size ≡ 61 }
{
    Calls::new().begin(0, b"old").steps(9).begin(0, b"new")
}

// The begins of units 0, 1 and 2 with their steps, and the begin of the group.
fn groups() -> Calls
    ensures { result.size ≡ 136 }
{
    Calls::new()
        .begin(0, &[1, 2])
        .steps(7)
        .begin(1, &[3])
        .steps(5)
        .begin(2, &[4, 5, 6])
        .steps(9)
        .group(&[1, 19, 0, 17, 18])
}

fn in_saves<W: Write>(out: &mut W) -> io::Result<()> {
    for page in PAGES {
        row(out, |calls, m| save_back(page, calls, m), saves(), 9)?;
    }
    let back = |calls: &[u8], m: u8| save_back(Page::One, calls, m);
    // cut in copy A, after two stores, and in copy B, after six
    row(out, back, saves().steps(2).cut(0x5a), 4)?;
    row(out, back, saves().steps(6).cut(0x5a), 4)
}

fn in_groups<W: Write>(out: &mut W) -> io::Result<()> {
    for page in PAGES {
        row(out, |calls, m| group_back(page, calls, m), groups(), 42)?;
    }
    let back = |calls: &[u8], m: u8| group_back(Page::One, calls, m);
    // the record complete
    let stands = groups().steps(15).cut(0x5a);
    row(out, back, stands, 27)?;
    // passed
    row(out, back, groups().steps(8).cut(0x5a), 34)?;
    // not passed
    row(out, back, groups().steps(7).cut(0), 7)?;
    // cut again after 10 steps of the rewriting
    row(out, back, stands.steps(10).cut(0x5a), 30)
}

fn main(rt: HostRuntime) -> io::Result<()> {
    let mut out = io::writer(&rt);
    in_saves(&mut out)?;
    in_groups(&mut out)
}
