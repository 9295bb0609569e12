// The bench program's work, document 01, 'Bench program': plays a script line by line on the save store, and prints.
// All lines are put onto one page, in lent memory; `flush` alone writes it out, to the writer that is handed down to it. Its users are
// our own programs, for which `run_input` makes room enough.
#![tactic(auto)]

ghost use Rattle.std.specs.Prelude.{◌≡◌, Some, ◌+◌, ◌<◌, ◌≤◌, length, take, IfOk, OnErr};
ghost use Rattle.model.specs.declared.Role.TheVariants.{Service};
ghost use Rattle.model.specs.Refusals.{start_number};
ghost use Rattle.model.specs.Calls.{begin, cut};
ghost use Rattle.store.specs.Modelled.{modelled, Gives};
ghost use Rattle.token.specs.Token.{hex_at};
ghost use Rattle.list.specs.Items.{values_at};
ghost use Rattle.script.specs.Line.{form_of};
ghost use Rattle.printing.specs.Printed.{answer_line, line_most};
ghost use Rattle.play.specs.Input.{ReadsUpTo};
ghost use Rattle.play.specs.Plays.{Buffer, Printed, Room, Held, plays, Plays};

use input::read_full;
use layout::base_of;
use model::{Plan, Role};
use printing::{put_answer, put_unit};
use reader::Read;
use rights::service_rights;
use script::Form;
use std::io;
use store::{Answer, Device};
use text::Page;

// The most bytes that a script may have.
const TEXT_MOST: usize = 65536;

// The image of the widest plan: eight units of 256 bytes, twice, and their markers' pages of 16.
const IMAGE_MOST: usize = 4224;

// Lines are put onto the page, which is written out before one that may not fit any more.
#[derive(Drop)]
struct Printer<'w, 'p, W> {
    writer: &'w mut W,
    page: Page<'p>,
}

impl<W: io::Write> Printer<'_, '_, W> {
    // Writes out what the page holds.
    fn flush(&mut self) -> io::Result<()>
        requires { self.old.page.used ≤ length self.old.page.bytes.now }
        ensures flushed { IfOk result (λ _. self.new.page.used ≡ 0) }
        ensures failed { OnErr result (self.new.page.used ≡ self.old.page.used) }
        ensures bytes { self.new.page.bytes.now ≡ self.old.page.bytes.now }
    {
        self.writer.write_all(self.page.text())?;
        self.page.clear();
        Ok(())
    }

    // Room for the next line: the page is written out before if it may not fit.
    fn make_room(&mut self) -> io::Result<()>
        requires { Buffer self.old.page }
        ensures made { IfOk result (λ _. Room self.old.page self.new.page) }
        ensures failed { OnErr result (self.new.page.used ≡ self.old.page.used) }
        ensures bytes { self.new.page.bytes.now ≡ self.old.page.bytes.now }
    {
        if self.page.room() < printing::LINE_MOST {
            self.flush()?;
        }
        Ok(())
    }

    // Prints a word and a number.
    fn print(&mut self, word: &[u8], number: usize) -> io::Result<()>
        requires { Buffer self.old.page × (length word.now ≤ 5) × (number < 100000) }
        ensures printed { IfOk result (λ _. Printed self.old.page (answer_line word.now number) self.new.page
            × Buffer self.new.page) }
        ensures size { length self.new.page.bytes.now ≡ length self.old.page.bytes.now }
        ensures failed { OnErr result (self.new.page.bytes.now ≡ self.old.page.bytes.now) }
    {
        self.make_room()?;
        put_answer(&mut self.page, word, number);
        Ok(())
    }

    // Prints a line a unit.
    fn show(&mut self, plan: Plan, image: &[u8]) -> io::Result<()>
        requires { Buffer self.old.page × Held plan image.now }
        ensures printed { IfOk result (λ _. Buffer self.new.page) }
        ensures size { length self.new.page.bytes.now ≡ length self.old.page.bytes.now }
    {
        for unit in 0..plan.count {
            self.make_room()?;
            put_unit(&mut self.page, plan, image, unit);
        }
        Ok(())
    }

    // Prints a form's word and its answer's number; the answer's device is the next.
    fn tell(&mut self, word: &[u8], answer: Answer) -> io::Result<Option<Device>>
        requires { Buffer self.old.page × (length word.now ≤ 5) }
        ensures told { IfOk result (λ next. (next ≡ Some answer.device)
            × Printed self.old.page (answer_line word.now answer.number) self.new.page
            × Buffer self.new.page) }
        ensures size { length self.new.page.bytes.now ≡ length self.old.page.bytes.now }
        ensures failed { OnErr result (self.new.page.bytes.now ≡ self.old.page.bytes.now) }
    {
        self.print(word, usize::from(answer.number))?;
        Ok(Some(answer.device))
    }
}

// The bytes that a line lists, at the front of a buffer.
fn bytes_at<const N: usize>(line: &[u8], at: usize, count: usize) -> [u8; N]
    requires { count ≤ N }
    ensures { take count result ≡ values_at hex_at line.now at count }
{
    let mut bytes = [0u8; N];
    script::bytes_into(line, at, count, &mut bytes);
    bytes
}

// Begins a write of the bytes that a line lists.
fn write(device: Device, image: &[u8], line: &[u8], unit: u16, at: usize, count: usize) -> Answer
    requires { count ≤ 256 }
    ensures { Gives result image.now
        (begin (modelled device) image.now Service unit (values_at hex_at line.now at count)) }
{
    let payload: [u8; 256] = bytes_at(line, at, count);
    device.begin(image, Role::Service, unit, &payload[..count])
}

// Cuts the power, with the bytes that a line lists.
fn cut(device: Device, image: &mut [u8], line: &[u8], at: usize, count: usize) -> Answer
    requires { count ≤ 16 }
    ensures { Gives result image.new
        (cut (modelled device) image.old (values_at hex_at line.now at count)) }
{
    let page: [u8; 16] = bytes_at(line, at, count);
    device.cut(image, &page[..count])
}

// Plays a line after the first: the device after it, or None if the line may not stand there.
#[tactic(auto, using(script::proofs::Counts::write_count, script::proofs::Counts::cut_count), unfolding(crate::specs::Plays::plays))]
fn play<W: io::Write>(
    printer: &mut Printer<'_, '_, W>,
    form: Form,
    line: &[u8],
    plan: Plan,
    device: Device,
    image: &mut [u8],
) -> io::Result<Option<Device>>
    requires { (form_of line.now ≡ Some form) × Held plan image.old × Buffer printer.old.page }
    ensures played { IfOk result (λ next. Plays form (plays form line.now (modelled device) image.old) next image.new
        printer.old.page printer.new.page) }
    ensures image { image.new ≡ (plays form line.now (modelled device) image.old).image }
    ensures size { length printer.new.page.bytes.now ≡ length printer.old.page.bytes.now }
{
    match form {
        // "must be the first line and no other"
        Form::Plan { .. } => Ok(None),
        Form::Write { unit, at, count } => {
            printer.tell(b"write", write(device, image, line, unit, at, count))
        }
        Form::Step(count) => printer.tell(b"step", device.steps(image, count)),
        Form::Cut { at, count } => printer.tell(b"cut", cut(device, image, line, at, count)),
        Form::Wake => printer.tell(b"wake", device.wake(image)),
        Form::Show => {
            printer.show(plan, image)?;
            Ok(Some(device))
        }
    }
}

// Plays the lines from an offset on, the second of the script and those after it.
fn play_lines<W: io::Write>(
    printer: &mut Printer<'_, '_, W>,
    text: &[u8],
    from: usize,
    plan: Plan,
    opened: Device,
    image: &mut [u8],
) -> io::Result<()>
    requires { (from ≤ length text.now + 1) × (length text.now ≤ 65536) × (0 < from)
        × Held plan image.old × Buffer printer.old.page }
    ensures printed { IfOk result (λ _. Buffer printer.new.page) }
    ensures size { length printer.new.page.bytes.now ≡ length printer.old.page.bytes.now }
{
    let mut at = from;
    let mut number: usize = 1;
    let mut device = opened;
    // No `for` goes along these lines: only a line that was read tells where the next begins.
    while at < text.len() {
        number += 1;
        // "Any line that isn't one of these forms prints `bad` and its decimal line number, and the run ends."
        let Some(Read { form, start, end }) = reader::read_line(text, at) else {
            return printer.print(b"bad", number);
        };
        let Some(next) = play(printer, form, &text[start..end], plan, device, image)? else {
            return printer.print(b"bad", number);
        };
        device = next;
        at = end + 1;
    }
    Ok(())
}

// Plays a plan: start, and format over an image of exactly the units' length. Unless one is refused, plays the lines from an offset on.
fn play_plan<W: io::Write>(
    printer: &mut Printer<'_, '_, W>,
    text: &[u8],
    from: usize,
    plan: Plan,
    image: &mut [u8],
) -> io::Result<()>
    requires { (from ≤ length text.now + 1) × (length text.now ≤ 65536) × (0 < from)
        × (4224 ≤ length image.old) × Buffer printer.old.page }
    ensures printed { IfOk result (λ _. Buffer printer.new.page) }
    ensures size { length printer.new.page.bytes.now ≡ length printer.old.page.bytes.now }
{
    let started = Device::start(plan);
    if started.number != 0 {
        return printer.print(b"plan", usize::from(started.number));
    }
    let units = &mut image[..base_of(plan, plan.count)];
    let formatted = started.device.format(units);
    printer.print(b"plan", usize::from(formatted.number))?;
    if formatted.number != 0 {
        return Ok(());
    }
    play_lines(printer, text, from, plan, formatted.device, units)
}

// Plays a script; its first line must be a plan.
#[tactic(auto, using(script::proofs::Counts::plan_count))]
fn run<W: io::Write>(
    printer: &mut Printer<'_, '_, W>,
    text: &[u8],
    image: &mut [u8],
) -> io::Result<()>
    requires { (4224 ≤ length image.old) × Buffer printer.old.page }
    ensures printed { IfOk result (λ _. Buffer printer.new.page) }
    ensures size { length printer.new.page.bytes.now ≡ length printer.old.page.bytes.now }
{
    if TEXT_MOST < text.len() {
        return printer.print(b"bad", 0);
    }
    if text.is_empty() {
        return Ok(());
    }
    let Some(Read { form, start, end }) = reader::read_line(text, 0) else {
        return printer.print(b"bad", 1);
    };
    let Form::Plan { at, count, page } = form else {
        return printer.print(b"bad", 1);
    };
    let plan = Plan {
        count: count as u16,
        widths: script::widths_at(&text[start..end], at, count),
        page,
        grouped: false,
        rights: service_rights(),
    };
    play_plan(printer, text, end + 1, plan, image)
}

// Plays a script of any length, and writes out what the page still holds. The image has room for the largest plan.
pub fn run_all<W: io::Write>(
    writer: &mut W,
    text: &[u8],
    image: &mut [u8],
    out: &mut [u8],
) -> io::Result<()>
    requires { (4224 ≤ length image.old) × (line_most ≤ length out.old) }
{
    let mut printer = Printer {
        writer,
        page: Page::new(out),
    };
    run(&mut printer, text, image)?;
    printer.flush()
}

// Plays the script that a reader gives, from its first byte to its end; a byte more than a script may have tells that one is too long.
pub fn run_input<R: io::Read, W: io::Write>(input: &mut R, writer: &mut W) -> io::Result<()>
    ensures { IfOk result (λ _. ReadsUpTo 65537 (R.remaining input.old) (R.remaining input.new)) }
{
    let mut text = [0u8; TEXT_MOST + 1];
    let count = read_full(input, &mut text)?;
    let mut image = [0u8; IMAGE_MOST];
    let mut out = [0u8; 32768];
    run_all(writer, &text[..count], &mut image, &mut out)
}
