// One line of a bench script, read: the forms, over the tokens of `token` and the lists of `list`.
#![tactic(auto)]

ghost use Rattle.std.specs.Prelude.{◌≡◌};
ghost use Rattle.std.proofs.lemmas.List.Edits.{sets};
ghost use Rattle.token.specs.Token.{place, eat_at, hex_at};
ghost use Rattle.list.specs.Items.{values_at};
ghost use Rattle.script.specs.Line.{closed_at, paged_at, plan_of, write_of, cut_list_of, step_of, cut_of, bare_of, short_form_of, form_of};
ghost use Rattle.script.specs.Widths.{widths_at};

use list::{Byte, Number, Token, list_at};
use token::{eat, hex, number, word};

// A form. Of a list it keeps where in the line the items begin, and how many there are.
#[derive(Clone, Copy)]
pub enum Form {
    Plan { at: usize, count: usize, page: u16 },
    Write { unit: u16, at: usize, count: usize },
    Step(u16),
    Cut { at: usize, count: usize },
    Wake,
    Show,
}

// The form, if its bracket stands here and ends the line.
#[tactic(auto, unfolding(crate::specs::Line::closed_at))]
fn closed(line: &[u8], at: usize, form: Form) -> Option<Form>
    ensures { result ≡ closed_at line.now at form }
{
    let end = eat(line, at, b')')?;
    (end == line.len()).then_some(form)
}

// A plan's ` (page P)` and the bracket of the form, past the widths.
#[tactic(auto, using(crate::proofs::Lost::lost_bad, token::proofs::Lost::lost_number, token::proofs::Lost::lost_eats), unfolding(crate::specs::Line::paged_at))]
fn paged(line: &[u8], past: usize, at: usize, count: usize) -> Option<Form>
    ensures { result ≡ paged_at line.now past at count }
{
    let page = number(line, word(line, past, b" (page ")?)?;
    let end = eat(line, page.next, b')')?;
    let form = Form::Plan {
        at,
        count,
        page: page.value as u16,
    };
    closed(line, end, form)
}

// `(plan (W ..))`, 0 to 16 widths, and `(plan (W ..) (page P))`.
#[tactic(auto, using(crate::proofs::Lost::lost_bad, crate::proofs::Lost::lost_paged, crate::proofs::Or::or_first, crate::proofs::Or::or_other, list::proofs::Laws::lost_list), unfolding(crate::specs::Line::plan_of))]
fn plan(line: &[u8]) -> Option<Form>
    ensures { result ≡ plan_of line.now }
{
    let at = word(line, 0, b"(plan (")?;
    let widths = list_at::<Number>(line, at, 16)?;
    let unpaged = Form::Plan {
        at,
        count: widths.count,
        page: 1,
    };
    closed(line, widths.next, unpaged).or_else(|| paged(line, widths.next, at, widths.count))
}

// `(write U (HH ..))`, 0 to 256 bytes.
#[tactic(auto, using(crate::proofs::Lost::lost_bad, token::proofs::Lost::lost_number, token::proofs::Lost::lost_word, list::proofs::Laws::lost_list), unfolding(crate::specs::Line::write_of))]
fn write(line: &[u8]) -> Option<Form>
    ensures { result ≡ write_of line.now }
{
    let unit = number(line, word(line, 0, b"(write ")?)?;
    let at = word(line, unit.next, b" (")?;
    let bytes = list_at::<Byte>(line, at, 256)?;
    let form = Form::Write {
        unit: unit.value as u16,
        at,
        count: bytes.count,
    };
    closed(line, bytes.next, form)
}

// `(cut (HH ..))`, 0 to 16 bytes.
#[tactic(auto, using(crate::proofs::Lost::lost_bad, list::proofs::Laws::lost_list), unfolding(crate::specs::Line::cut_list_of))]
fn cut_list(line: &[u8]) -> Option<Form>
    ensures { result ≡ cut_list_of line.now }
{
    let at = word(line, 0, b"(cut (")?;
    let bytes = list_at::<Byte>(line, at, 16)?;
    closed(
        line,
        bytes.next,
        Form::Cut {
            at,
            count: bytes.count,
        },
    )
}

// `(step N)`, N 1 to 65535.
#[tactic(auto, using(crate::proofs::Lost::lost_bad, token::proofs::Lost::lost_number), unfolding(crate::specs::Line::step_of))]
fn step(line: &[u8]) -> Option<Form>
    ensures { result ≡ step_of line.now }
{
    let count = number(line, word(line, 0, b"(step ")?)?;
    if count.value == 0 {
        return None;
    }
    closed(line, count.next, Form::Step(count.value as u16))
}

// `(cut HH)`: the byte stands as in a list of one.
#[tactic(auto, using(crate::proofs::Lost::lost_bad, token::proofs::Lost::lost_hex), unfolding(crate::specs::Line::cut_of))]
fn cut(line: &[u8]) -> Option<Form>
    ensures { result ≡ cut_of line.now }
{
    let at = word(line, 0, b"(cut ")?;
    let byte = hex(line, at)?;
    closed(line, byte.next, Form::Cut { at, count: 1 })
}

// `(wake)`, `(show)`: a form that is its word alone.
#[tactic(auto, using(crate::proofs::Lost::lost_bad), unfolding(crate::specs::Line::bare_of))]
fn bare(line: &[u8], name: &[u8], form: Form) -> Option<Form>
    ensures { result ≡ bare_of line.now name.now form }
{
    closed(line, word(line, 0, name)?, form)
}

// The forms without a list.
#[tactic(auto, using(crate::proofs::Or::or_first, crate::proofs::Or::or_other), unfolding(crate::specs::Line::short_form_of))]
fn short_form_of(line: &[u8]) -> Option<Form>
    ensures { result ≡ short_form_of line.now }
{
    step(line)
        .or_else(|| cut(line))
        .or_else(|| bare(line, b"(wake", Form::Wake))
        .or_else(|| bare(line, b"(show", Form::Show))
}

// The form that a line is.
#[tactic(auto, using(crate::proofs::Or::or_first, crate::proofs::Or::or_other), unfolding(crate::specs::Line::form_of))]
pub fn form_of(line: &[u8]) -> Option<Form>
    ensures { result ≡ form_of line.now }
{
    plan(line)
        .or_else(|| write(line))
        .or_else(|| cut_list(line))
        .or_else(|| short_form_of(line))
}

// The value of a list's item, 0 where none stands, and the place of the next.
#[tactic(auto, using(token::proofs::Lost::lost_eats))]
fn value_at<T: Token>(line: &[u8], at: Option<usize>) -> (usize, Option<usize>)
    ensures value { result.0 ≡ (T.reads line.now (place at)).value }
    ensures next { place result.1 ≡ eat_at line.now (T.reads line.now (place at)).next 32 }
{
    match at.and_then(|at| T::read(line, at)) {
        Some(item) => (item.value, eat(line, item.next, b' ')),
        None => (0, None),
    }
}

// The bytes of a list, into the front of out, as far as out reaches.
#[tactic(auto, using(crate::proofs::Small::hex_small, list::proofs::Laws::values_step, list::proofs::Laws::values_end, list::proofs::Laws::values_out))]
pub fn bytes_into(line: &[u8], at: usize, count: usize, out: &mut [u8])
    ensures { out.new ≡ sets out.old 0 (values_at hex_at line.now at count) }
{
    let mut place = Some(at);
    for i in 0..count.min(out.len()) {
        let (value, next) = value_at::<Byte>(line, place);
        out[i] = value as u8;
        place = next;
    }
}

// The first eight numbers of a list, zeros past them.
#[tactic(auto, using(crate::proofs::Small::number_small, crate::proofs::Laws::widths_done, list::proofs::Laws::values_step))]
pub fn widths_at(line: &[u8], at: usize, count: usize) -> [u16; 8]
    ensures { result ≡ widths_at line.now at count }
{
    let mut widths = [0; 8];
    let mut place = Some(at);
    for i in 0..count.min(8) {
        let (value, next) = value_at::<Number>(line, place);
        widths[i] = value as u16;
        place = next;
    }
    widths
}
