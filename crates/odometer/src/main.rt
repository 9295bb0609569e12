// Wheel turns over power cuts. Three rides are begun: one is saved, one is cut off at the last store before it passes, and one at the
// first after it. The console shows the total after each; and what refuses a ride, or a total.
#![tactic(auto)]

use model::Role;
use rights::service_plan;
use std::io;
use std::io::Write;
use store::Device;

// The total that a unit holds, or why there is none to show.
fn show<W: Write>(out: &mut W, device: Device, image: &[u8], unit: u16) -> io::Result<()> {
    match device.total(image, Role::Service, unit) {
        Ok(turns) => writeln!(out, "turns {turns}"),
        Err(refusal) => writeln!(out, "no total: {}", refusal.number()),
    }
}

// A ride of which so many stores are made.
fn ride<W: Write>(
    out: &mut W,
    device: Device,
    image: &mut [u8],
    turns: u64,
    stores: u16,
) -> io::Result<Device> {
    let begun = device.ride(image, turns);
    writeln!(out, "ride {}", begun.number)?;
    let saved = begun.device.steps(image, stores);
    Ok(saved.device)
}

// A power cut, and the repair, which for unit 0 takes nine steps.
fn outage(device: Device, image: &mut [u8]) -> Device {
    let dead = device.cut(image, b"\0");
    let woken = dead.device.wake(image);
    let repaired = woken.device.steps(image, 9);
    repaired.device
}

fn formatted(image: &mut [u8]) -> Device {
    let started = Device::start(service_plan(&[8, 1], 1, false));
    let ready = started.device.format(image);
    ready.device
}

fn main(rt: HostRuntime) -> io::Result<()> {
    let mut out = io::writer(&rt);
    let mut image = [0; 20];
    let ready = formatted(&mut image);
    let first = ride(&mut out, ready, &mut image, 70000, 19)?;
    show(&mut out, first, &image, 0)?;
    let before = ride(&mut out, first, &mut image, 500, 9)?;
    let second = outage(before, &mut image);
    show(&mut out, second, &image, 0)?;
    let after = ride(&mut out, second, &mut image, 500, 10)?;
    let third = outage(after, &mut image);
    show(&mut out, third, &image, 0)?;
    // as many as 64 bits hold, and then one more; unit 1 is no total
    let full = ride(&mut out, third, &mut image, u64::MAX - 70500, 19)?;
    show(&mut out, full, &image, 0)?;
    let refused = ride(&mut out, full, &mut image, 1, 0)?;
    show(&mut out, refused, &image, 1)
}
