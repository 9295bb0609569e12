// Plays scripts of the simulator's looks (simulator/README.md, 'Looks') on the store and the brake, one after the other, with an empty
// line before each but the first. The stored input is simulator/looks.in and simulator/looks-pages.in, and the stored output is what
// the simulator printed for them: every read, every inspect and all 1,280 drives are held against a witness that was written from the
// document and the tickets alone.
#![tactic(auto)]

ghost use Rattle.std.specs.Prelude.{◌≡◌, ◌<◌, ◌≤◌, length, IfOk};
ghost use Rattle.model.specs.Layout.{total};
ghost use Rattle.model.specs.Refusals.{start_number};

use brake::drive;
use input::read_full;
use layout::measure;
use model::{Inspection, Plan, Role};
use printing::put_unit;
use rights::service_plan;
use script::{Form, bytes_into, form_of, widths_at};
use std::io;
use store::{Answer, Device};
use text::Page;
use token::{eat, hex, number, word};

// The image of the widest plan: eight units of 256 bytes, twice, and their markers' pages of 16.
const IMAGE_MOST: usize = 4224;

// A line that is none of the bench's forms.
#[derive(Clone, Copy)]
enum Look {
    Read(u16),
    Inspect,
    Drive { level: u16, rate: u16 },
    Drives,
    Set { index: usize, byte: u8 },
}

// `(read U)`. What stands behind the last token of this and the next four isn't looked at.
fn read(line: &[u8]) -> Option<Look> {
    let unit = number(line, word(line, 0, b"(read ")?)?;
    Some(Look::Read(unit.value as u16))
}

// `(drive L R)`
fn drive_at(line: &[u8]) -> Option<Look> {
    let level = number(line, word(line, 0, b"(drive ")?)?;
    let rate = number(line, eat(line, level.next, b' ')?)?;
    Some(Look::Drive {
        level: level.value as u16,
        rate: rate.value as u16,
    })
}

// `(set I HH)`
fn set_at(line: &[u8]) -> Option<Look> {
    let index = number(line, word(line, 0, b"(set ")?)?;
    let byte = hex(line, eat(line, index.next, b' ')?)?;
    Some(Look::Set {
        index: index.value,
        byte: byte.value as u8,
    })
}

// `(inspect)` and `(drives)`
fn bare(line: &[u8], name: &[u8], look: Look) -> Option<Look> {
    word(line, 0, name)?;
    Some(look)
}

fn look_of(line: &[u8]) -> Option<Look> {
    read(line)
        .or_else(|| drive_at(line))
        .or_else(|| set_at(line))
        .or_else(|| bare(line, b"(inspect)", Look::Inspect))
        .or_else(|| bare(line, b"(drives)", Look::Drives))
}

// Bytes in hexadecimal: the first after a bracket, the others after a space.
fn say_bytes<W: io::Write>(writer: &mut W, bytes: &[u8]) -> io::Result<()> {
    let mut before = '(';
    for byte in bytes {
        write!(writer, "{before}{byte:02x}")?;
        before = ' ';
    }
    Ok(())
}

fn say_read<W: io::Write>(
    writer: &mut W,
    device: Device,
    image: &[u8],
    unit: u16,
) -> io::Result<()> {
    if let Err(refusal) = device.check_read(image, Role::Service, unit) {
        return writeln!(writer, "read {}", refusal.number());
    }
    write!(writer, "read 0 ")?;
    say_bytes(writer, device.read(image, Role::Service, unit))?;
    writeln!(writer, ")")
}

fn say_inspection<W: io::Write>(writer: &mut W, inspection: Inspection) -> io::Result<()> {
    match inspection {
        Inspection::Refused(number) => writeln!(writer, "inspect refused {number}"),
        Inspection::Suspect(unit) => writeln!(writer, "inspect unit {unit}"),
        Inspection::AllOk => writeln!(writer, "inspect none"),
    }
}

fn say_drive<W: io::Write>(writer: &mut W, level: u16, rate: u16) -> io::Result<()> {
    match drive(level, rate) {
        Ok(steps) => writeln!(writer, "drive 0 {steps}"),
        Err(refusal) => writeln!(writer, "drive {} 0", refusal.number()),
    }
}

// A level's drives, bin by bin.
fn say_level<W: io::Write>(writer: &mut W, level: u16) -> io::Result<()> {
    write!(writer, "level {level}")?;
    for bin in 0..64 {
        write!(writer, " {}", drive(level, 4 * bin).unwrap_or(0))?;
    }
    writeln!(writer)
}

fn say_levels<W: io::Write>(writer: &mut W) -> io::Result<()> {
    for level in 1..=20 {
        say_level(writer, level)?;
    }
    Ok(())
}

// False for a byte that is not in the image.
fn set(image: &mut [u8], index: usize, byte: u8) -> bool {
    match image.get_mut(index) {
        Some(place) => {
            *place = byte;
            true
        }
        None => false,
    }
}

// The device is left as it is. False for a line that is as good as none.
fn looked<W: io::Write>(
    writer: &mut W,
    asked: Look,
    device: Device,
    image: &mut [u8],
) -> io::Result<bool> {
    match asked {
        Look::Read(unit) => say_read(writer, device, image, unit)?,
        Look::Inspect => say_inspection(writer, device.inspect(image))?,
        Look::Drive { level, rate } => say_drive(writer, level, rate)?,
        Look::Drives => say_levels(writer)?,
        Look::Set { index, byte } => return Ok(set(image, index, byte)),
    }
    Ok(true)
}

// A unit of an accepted plan, as the bench prints it.
fn say_unit<W: io::Write>(writer: &mut W, plan: Plan, image: &[u8], unit: u16) -> io::Result<()>
    requires { (start_number plan ≡ 0) × (total plan ≤ length image.now) × (unit < plan.count) }
{
    let mut line = [0; printing::LINE_MOST];
    let mut page = Page::new(&mut line);
    put_unit(&mut page, plan, image, unit);
    writer.write_all(page.text())
}

// `(show)`
fn show<W: io::Write>(writer: &mut W, plan: Plan, image: &[u8]) -> io::Result<()> {
    let Ok(whole) = measure(plan, 0) else {
        return Ok(());
    };
    if image.len() < whole.total as usize {
        return Ok(());
    }
    for unit in 0..plan.count {
        say_unit(writer, plan, image, unit)?;
    }
    Ok(())
}

// Begins a write of the bytes that a line lists. Its own, and so is `cut`: the crate `play` asks that its list is short, which a line of
// the bench proves, and what it prints is not held against a simulator here.
fn write(line: &[u8], device: Device, image: &[u8], unit: u16, at: usize, count: usize) -> Answer {
    let mut payload = [0; 256];
    bytes_into(line, at, count, &mut payload);
    device.begin(image, Role::Service, unit, &payload[..count.min(256)])
}

// Cuts the power, with the bytes that a line lists.
fn cut(line: &[u8], device: Device, image: &mut [u8], at: usize, count: usize) -> Answer {
    let mut page = [0; 16];
    bytes_into(line, at, count, &mut page);
    device.cut(image, &page[..count.min(16)])
}

// Prints a call's word and number, and hands its device on.
fn told<W: io::Write>(writer: &mut W, word: &str, answer: Answer) -> io::Result<Option<Device>> {
    writeln!(writer, "{word} {}", answer.number)?;
    Ok(Some(answer.device))
}

// One of the bench's forms after the plan's; None where it may not stand.
fn play<W: io::Write>(
    writer: &mut W,
    form: Form,
    line: &[u8],
    device: Device,
    image: &mut [u8],
) -> io::Result<Option<Device>> {
    match form {
        // "must be the first line and no other"
        Form::Plan { .. } => Ok(None),
        Form::Write { unit, at, count } => {
            told(writer, "write", write(line, device, image, unit, at, count))
        }
        Form::Step(count) => told(writer, "step", device.steps(image, count)),
        Form::Cut { at, count } => told(writer, "cut", cut(line, device, image, at, count)),
        Form::Wake => told(writer, "wake", device.wake(image)),
        Form::Show => {
            show(writer, device.plan, image)?;
            Ok(Some(device))
        }
    }
}

// Plays a line after the plan's; None if it is bad.
fn play_line<W: io::Write>(
    writer: &mut W,
    line: &[u8],
    device: Device,
    image: &mut [u8],
) -> io::Result<Option<Device>> {
    if let Some(form) = form_of(line) {
        return play(writer, form, line, device, image);
    }
    let Some(asked) = look_of(line) else {
        return Ok(None);
    };
    let done = looked(writer, asked, device, image)?;
    Ok(done.then_some(device))
}

// The first line, and what stands behind it.
fn split_line(text: &[u8]) -> (&[u8], &[u8])
    requires { 0 < length text.now }
    ensures { length result.1.now < length text.now }
{
    match text.iter().position(|byte| *byte == b'\n') {
        Some(end) => (&text[..end], &text[end + 1..]),
        None => (text, &[]),
    }
}

// Plays the lines of a text to an empty line, behind which the next text begins, or to a bad one, which ends them all.
fn play_lines<'a, W: io::Write>(
    writer: &mut W,
    text: &'a [u8],
    opened: Device,
    image: &mut [u8],
) -> io::Result<&'a [u8]>
    ensures { IfOk result (λ next. length next.now ≤ length text.now) }
{
    let mut left = text;
    let mut number: usize = 1;
    let mut device = opened;
    // No `for`: the text that is left behind an empty line is handed back.
    while !left.is_empty() {
        let (line, rest) = split_line(left);
        if line.is_empty() {
            return Ok(rest);
        }
        number += 1;
        let Some(after) = play_line(writer, line, device, image)? else {
            writeln!(writer, "bad {number}")?;
            return Ok(&[]);
        };
        device = after;
        left = rest;
    }
    Ok(left)
}

// The plan that a line has; one without units if it has none.
fn plan_of(line: &[u8]) -> Plan {
    let none = service_plan(&[], 1, false);
    match form_of(line) {
        Some(Form::Plan { at, count, page }) if count <= 8 => Plan {
            count: count as u16,
            widths: widths_at(line, at, count),
            page,
            ..none
        },
        _ => none,
    }
}

// Plays the first text: start, and format over an image of exactly the units' length; then the lines. The texts that are left.
fn play_text<'a, W: io::Write>(
    writer: &mut W,
    text: &'a [u8],
    image: &mut [u8],
) -> io::Result<&'a [u8]>
    requires { 0 < length text.now }
    ensures { IfOk result (λ next. length next.now < length text.now) }
{
    let (line, rest) = split_line(text);
    let plan = plan_of(line);
    let whole = match measure(plan, 0) {
        Ok(whole) => whole,
        Err(refusal) => {
            writeln!(writer, "plan {}", refusal.number())?;
            return Ok(&[]);
        }
    };
    let Some(image) = image.get_mut(..whole.total as usize) else {
        return Ok(&[]);
    };
    let started = Device::start(plan);
    let formatted = started.device.format(image);
    writeln!(writer, "plan {}", formatted.number)?;
    play_lines(writer, rest, formatted.device, image)
}

// Reads the texts, at most 65,536 bytes together, and plays them.
fn main(rt: HostRuntime) -> io::Result<()> {
    let mut text = [0; 65536];
    let count = read_full(&mut rt.reader(), &mut text)?;
    let mut writer = rt.stdout();
    let mut image = [0; IMAGE_MOST];
    let mut left = &text[..count];
    // No `for`: where a text ends is known once it is played.
    while !left.is_empty() {
        left = play_text(&mut writer, left, &mut image)?;
    }
    Ok(())
}
