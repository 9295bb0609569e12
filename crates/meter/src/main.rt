// What the benchmark counts (benchmark/README.md): on a plan of equal widths, rounds of one begin and `count` steps or passes.
// Standard input has ten bytes: units, width (low byte first), 0 for step or 1 for pass, the unit, rounds and count (low bytes first),
// and the page.
// Or, with 2 for drive or 3 for drive over a lent table: drives at a level (the unit's byte) and each rate below count.
#![tactic(auto)]

use brake::{drive, drive_over};
use console::passed;
use input::read_full;
use model::{Plan, Role};
use rights::service_plan;
use std::io;
use std::io::Write;
use store::{Answer, Device};

// What is counted.
#[derive(Clone, Copy)]
enum Counted {
    Step,
    Pass,
    Drive,
    DriveOver,
}

impl From<u8> for Counted {
    fn from(byte: u8) -> Counted {
        match byte {
            0 => Counted::Step,
            1 => Counted::Pass,
            3 => Counted::DriveOver,
            _ => Counted::Drive,
        }
    }
}

// The ten bytes, by name.
#[derive(Clone, Copy)]
struct Asked {
    units: u16,
    width: u16,
    counted: Counted,
    unit: u16,
    rounds: u16,
    count: u16,
    page: u16,
}

impl From<[u8; 10]> for Asked {
    fn from(bytes: [u8; 10]) -> Asked {
        let [units, w0, w1, counted, unit, r0, r1, c0, c1, page] = bytes;
        Asked {
            units: units.into(),
            width: u16::from_le_bytes([w0, w1]),
            counted: counted.into(),
            unit: unit.into(),
            rounds: u16::from_le_bytes([r0, r1]),
            count: u16::from_le_bytes([c0, c1]),
            page: page.into(),
        }
    }
}

// As many stores, each by a step or a pass. It is a function of its own in the object code too, so that the begun device is copied for
// it also where count is 0.
#[inline(never)]
fn stores<F: Fn(Device, &mut [u8]) -> Answer>(
    mut answer: Answer,
    image: &mut [u8],
    store: &F,
    count: u16,
)
    requires { F.IsAlwaysCallable store.now }
{
    for _ in 0..count {
        answer = store(answer.device, image);
    }
}

// Each round begins at the formatted device, so that only the stores differ between two counts.
fn rounds<F: Fn(Device, &mut [u8]) -> Answer>(
    formatted: Device,
    image: &mut [u8],
    store: F,
    asked: Asked,
    payload: &[u8],
)
    requires { F.IsAlwaysCallable store }
{
    for _ in 0..asked.rounds {
        let begun = formatted.begin(image, Role::Service, asked.unit, payload);
        stores(begun, image, &store, asked.count);
    }
}

fn play<W: Write, F: Fn(Device, &mut [u8]) -> Answer>(
    out: &mut W,
    asked: Asked,
    store: F,
) -> io::Result<()>
    requires { F.IsAlwaysCallable store }
{
    let plan = Plan {
        count: asked.units,
        ..service_plan(&[asked.width; 8], asked.page, false)
    };
    let mut image = [0; 4224];
    let formatted = Device::start(plan).device.format(&mut image).device;
    let payload = [120; 256];
    let Some(payload) = payload.get(..usize::from(asked.width)) else {
        return Ok(());
    };
    rounds(formatted, &mut image, store, asked, payload);
    out.write_all(formatted.read(&image, Role::Service, asked.unit))?;
    writeln!(out)
}

// The drives at each rate below count, put together so that none can be left out.
fn drives<W: Write, F: Fn(u16) -> u16>(out: &mut W, count: u16, drive: F) -> io::Result<()>
    requires { F.IsAlwaysCallable drive }
{
    let mixed = (0..count).fold(0, |mixed, rate| mixed ^ drive(rate));
    let [low, _] = mixed.to_le_bytes();
    out.write_all(&[low])
}

fn main(rt: HostRuntime) -> io::Result<()> {
    let mut bytes = [0; 10];
    let got = read_full(&mut rt.reader(), &mut bytes)?;
    if got != 10 {
        return Ok(());
    }
    let mut out = io::writer(&rt);
    let asked = Asked::from(bytes);
    let level = asked.unit;
    let table = [7; 1280];
    match asked.counted {
        Counted::Step => play(&mut out, asked, |device, image| device.step(image)),
        Counted::Pass => play(&mut out, asked, |device, image| passed(device, image)),
        Counted::Drive => drives(
            &mut out,
            asked.count,
            |rate| drive(level, rate).unwrap_or(0),
        ),
        Counted::DriveOver => drives(
            &mut out,
            asked.count,
            |rate| drive_over(&table, level, rate).unwrap_or(0),
        ),
    }
}
