// Prints the bench's lines onto a page, piece by piece. Its one user is the bench program, which sees to the space before it calls, as
// the `requires` ask.
#![tactic(auto)]

ghost use Rattle.std.specs.Prelude.{◌≡◌, ◌+◌, ◌*◌, ◌<◌, ◌≤◌, length};
ghost use Rattle.model.specs.Layout.{total};
ghost use Rattle.model.specs.Refusals.{start_number};
ghost use Rattle.text.specs.Appended.{Appended};
ghost use Rattle.printing.specs.Printed.{numbered, answer_line, listed, unit_text, unit_line, line_most};

use lookup::unit_span;
use model::Plan;
use text::Page;

// The most bytes that a line takes, a unit's of 256 bytes: `line_most` of specs/Printed.antt.
pub const LINE_MOST: usize = 1566;

// A word and a number.
fn put_numbered(page: &mut Page<'_>, word: &[u8], number: usize)
    requires { (page.old.used + length word.now + 6 ≤ length page.old.bytes.now) × (number < 100000) }
    ensures written { Appended page.old (numbered word.now number) page.new }
    ensures size { page.new.used ≤ page.old.used + length word.now + 6 }
{
    page.put_text(word);
    page.put(b' ');
    page.put_decimal(number);
}

// The line of an answer or of a bad line.
pub fn put_answer(page: &mut Page<'_>, word: &[u8], number: usize)
    requires { (page.old.used + length word.now + 7 ≤ length page.old.bytes.now) × (number < 100000) }
    ensures written { Appended page.old (answer_line word.now number) page.new }
    ensures size { page.new.used ≤ page.old.used + length word.now + 7 }
{
    put_numbered(page, word, number);
    page.put(b'\n');
}

// A word that begins with a bracket, its bytes, and the bracket that ends them.
fn put_list(page: &mut Page<'_>, word: &[u8], bytes: &[u8])
    requires { page.old.used + 1 + length word.now + 3 * length bytes.now ≤ length page.old.bytes.now }
    ensures written { Appended page.old (listed word.now bytes.now) page.new }
    ensures size { page.new.used ≡ page.old.used + 1 + length word.now + 3 * length bytes.now }
{
    page.put_text(word);
    page.put_bytes(bytes);
    page.put(b')');
}

// A unit's line from its parts.
fn put_parts(page: &mut Page<'_>, number: usize, log: &[u8], a: &[u8], b: &[u8])
    requires { (page.old.used + 27 + 3 * length log.now + 3 * length a.now + 3 * length b.now
        ≤ length page.old.bytes.now)
        × (number < 100000) }
    ensures written { Appended page.old (unit_text number log.now a.now b.now) page.new }
    ensures size { page.new.used
        ≤ page.old.used + 27 + 3 * length log.now + 3 * length a.now + 3 * length b.now }
{
    put_numbered(page, b"(unit", number);
    put_list(page, b" (log", log);
    put_list(page, b" (a", a);
    put_list(page, b" (b", b);
    page.put_text(b")\n");
}

// The line of a unit of an accepted plan, read from the image. The filler of its pages is not shown.
pub fn put_unit(page: &mut Page<'_>, plan: Plan, image: &[u8], unit: u16)
    requires { (page.old.used + line_most ≤ length page.old.bytes.now) × (start_number plan ≡ 0)
        × (total plan ≤ length image.now) × (unit < plan.count) }
    ensures written { Appended page.old (unit_line plan image.now unit) page.new }
    ensures size { page.new.used ≤ page.old.used + line_most }
{
    let span = unit_span(plan, unit, image.len());
    let base = span.base as usize;
    let width = span.width as usize;
    let copy_a = base + span.a as usize;
    let copy_b = base + span.b as usize;
    put_parts(
        page,
        usize::from(unit),
        &image[base..base + 1],
        &image[copy_a..copy_a + width],
        &image[copy_b..copy_b + width],
    );
}
