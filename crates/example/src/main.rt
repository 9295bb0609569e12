// How another crate uses the store: a rider's four bytes are saved, the supply dies in the middle of the second save, and the
// console wakes, repairs and reads the old bytes back. Then a ride and its rider are saved together: the supply dies between the two,
// and both come back new.
#![tactic(auto)]

use model::Role;
use rights::service_plan;
use std::io;
use std::io::Write;
use store::Device;

// A formatted device with "turn" saved.
fn first_save(image: &mut [u8]) -> Device {
    let plan = service_plan(&[4], 1, false);
    let started = Device::start(plan);
    let formatted = started.device.format(image);
    let begun = formatted.device.begin(image, Role::Service, 0, b"turn");
    let saved = begun.device.steps(image, 11);
    saved.device
}

// A save of "gone" that a cut ends after three of its eleven stores; then the console wakes and repairs.
fn second_save(device: Device, image: &mut [u8]) -> Device {
    let begun = device.begin(image, Role::Service, 0, b"gone");
    let halfway = begun.device.steps(image, 3);
    let dead = halfway.device.cut(image, b"Z");
    let woken = dead.device.wake(image);
    let repaired = woken.device.steps(image, 5);
    repaired.device
}

fn ride<W: Write>(out: &mut W, image: &mut [u8]) -> io::Result<()> {
    let saved = first_save(image);
    let ready = second_save(saved, image);
    out.write_all(ready.read(image, Role::Service, 0))?;
    writeln!(out)?;
    // 11, 3 and 5; the torn store doesn't count
    if ready.stores == 19 {
        writeln!(out, "19 stores")?;
    }
    Ok(())
}

// Units of four bytes and of one, and a group record that holds both: a byte for the count, one for each unit number, the five bytes.
fn grouped_device(image: &mut [u8]) -> Device {
    let plan = service_plan(&[4, 1, 8], 1, true);
    let started = Device::start(plan);
    let formatted = started.device.format(image);
    formatted.device
}

// "laps" into unit 0 and "7" into unit 1, cut after the 19 stores of the record and the 11 of "laps". The cut tears unit 1's marker, so
// 2 stores clean up that unit; then 35 write the members again and clear the record.
fn together(device: Device, image: &mut [u8]) -> Device {
    let begun = device.group(image, &[0, b'l', b'a', b'p', b's', 1, b'7']);
    let halfway = begun.device.steps(image, 30);
    let dead = halfway.device.cut(image, b"Z");
    let woken = dead.device.wake(image);
    let repaired = woken.device.steps(image, 37);
    repaired.device
}

fn ride_and_rider<W: Write>(out: &mut W, image: &mut [u8]) -> io::Result<()> {
    let formatted = grouped_device(image);
    let ready = together(formatted, image);
    out.write_all(ready.read(image, Role::Service, 0))?;
    write!(out, " ")?;
    out.write_all(ready.read(image, Role::Service, 1))?;
    writeln!(out)
}

fn main(rt: HostRuntime) -> io::Result<()> {
    let mut out = io::writer(&rt);
    ride(&mut out, &mut [0; 9])?;
    ride_and_rider(&mut out, &mut [0; 29])
}
