// A gym's console: unit 0 has the wheel turns, unit 1 the takings, unit 2 the limits. A rider sees turns and limits, and never the
// takings; the gym sees all of it and sets the limits; service has every right. What each role's read, total and begin answer, of good
// units, and again with the takings' and the limits' markers torn: a role that may not see a unit is not told so.
#![tactic(auto)]

use model::{NOTHING, Plan, Rights, Role, SEE, SEE_AND_WRITE};
use rights::service_plan;
use std::io;
use std::io::Write;
use store::{Device, number_of};

// A byte a unit. The bytes past the plan's units are not looked at. README shows this table as it stands.
fn gym_rights() -> Rights {
    Rights {
        rider: [
            SEE, NOTHING, SEE, NOTHING, NOTHING, NOTHING, NOTHING, NOTHING,
        ],
        gym: [
            SEE,
            SEE,
            SEE_AND_WRITE,
            NOTHING,
            NOTHING,
            NOTHING,
            NOTHING,
            NOTHING,
        ],
        service: [SEE_AND_WRITE; 8],
    }
}

// A formatted device with some takings.
fn opened(image: &mut [u8]) -> Device {
    let plan = Plan {
        rights: gym_rights(),
        ..service_plan(&[8, 8, 1], 1, false)
    };
    let started = Device::start(plan);
    let formatted = started.device.format(image);
    let begun = formatted
        .device
        .begin(image, Role::Service, 1, &300u64.to_le_bytes());
    let saved = begun.device.steps(image, 19);
    saved.device
}

// The numbers of a read, of a total, with what it shows, and of a begin.
fn ask<W: Write>(
    out: &mut W,
    device: Device,
    image: &[u8],
    role: Role,
    unit: u16,
    payload: &[u8],
) -> io::Result<()> {
    let read = number_of(device.check_read(image, role, unit));
    let (total, amount) = match device.total(image, role, unit) {
        Ok(amount) => (0, amount),
        Err(refusal) => (refusal.number(), 0),
    };
    let begin = device.begin(image, role, unit, payload).number;
    writeln!(
        out,
        " read {read}, total {total} shows {amount}, begin {begin}"
    )
}

fn ask_roles<W: Write>(out: &mut W, device: Device, image: &[u8]) -> io::Result<()> {
    for (role, name) in [
        (Role::Rider, "rider"),
        (Role::Gym, "gym"),
        (Role::Service, "service"),
    ] {
        write!(out, "{name:<7} turns:  ")?;
        ask(out, device, image, role, 0, b"01234567")?;
        write!(out, "{name:<7} takings:")?;
        ask(out, device, image, role, 1, b"01234567")?;
        write!(out, "{name:<7} limits: ")?;
        ask(out, device, image, role, 2, b"9")?;
    }
    Ok(())
}

fn main(rt: HostRuntime) -> io::Result<()> {
    let mut out = io::writer(&rt);
    let mut image = [0; 37];
    let device = opened(&mut image);
    ask_roles(&mut out, device, &image)?;
    writeln!(out, "torn:")?;
    image[17] = 2;
    image[34] = 2;
    ask_roles(&mut out, device, &image)
}
