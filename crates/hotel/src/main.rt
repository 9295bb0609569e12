// A hotel's bike: rides are paid for. Unit 0 has the turns, unit 1 the cents, unit 2 is the group record. Of each ride some stores are
// made, then the power fails; the console wakes, repairs and shows both totals. Both are of the same rides, wherever the power failed.
#![tactic(auto)]

use model::Role;
use rights::service_plan;
use std::io;
use std::io::Write;
use store::Device;

fn formatted(image: &mut [u8]) -> Device {
    let started = Device::start(service_plan(&[8, 8, 19], 1, true));
    let ready = started.device.format(image);
    ready.device
}

// A paid ride of which so many stores are made before the power fails. The repair is over when a step is refused.
fn outage(device: Device, image: &mut [u8], turns: u64, stores: u16) -> Device {
    let begun = device.paid_ride(image, turns);
    let halfway = begun.device.steps(image, stores);
    let dead = halfway.device.cut(image, b"\0");
    let woken = dead.device.wake(image);
    let repaired = woken.device.steps(image, 1000);
    repaired.device
}

// Such a ride, and the totals that the console then shows.
fn ride<W: Write>(
    out: &mut W,
    device: Device,
    image: &mut [u8],
    turns: u64,
    stores: u16,
) -> io::Result<Device> {
    let after = outage(device, image, turns, stores);
    let total = after.total(image, Role::Service, 0).unwrap_or(0);
    let cents = after.total(image, Role::Service, 1).unwrap_or(0);
    writeln!(
        out,
        "ride of {turns}, cut after {stores}: turns {total}, cents {cents}"
    )?;
    Ok(after)
}

// The record's write takes 41 stores and passes at the 21st, each member's takes 19, and the record's zeros 41 again.
const RIDES: [(u64, u16); 7] = [
    (500, 120),
    (501, 20),
    (501, 21),
    (0, 41),
    (62000, 50),
    (62001, 70),
    (1, 119),
];

fn main(rt: HostRuntime) -> io::Result<()> {
    let mut out = io::writer(&rt);
    let mut image = [0; 73];
    let mut device = formatted(&mut image);
    for (turns, stores) in RIDES {
        device = ride(&mut out, device, &mut image, turns, stores)?;
    }
    // as many turns as 64 bits hold, on top of those that are there
    let turns = u64::MAX;
    let refused = device.paid_ride(&image, turns);
    writeln!(out, "ride of {turns}: refused {}", refused.number)
}
