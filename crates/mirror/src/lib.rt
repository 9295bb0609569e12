// How a store of a unit that was looked up ends: whole, or torn by a power cut.
#![tactic(auto)]

ghost use Rattle.std.specs.Prelude.{◌≡◌, ◌∷◌, ◌+◌, ◌<◌, ◌≤◌, length, set, drop};
ghost use Rattle.std.proofs.lemmas.List.Edits.{sets};
ghost use Rattle.model.specs.declared.Phase.TheVariants.{Grouping};
ghost use Rattle.model.specs.Marker.{torn, torn_by};
ghost use Rattle.model.specs.Refusals.{cut_number};
ghost use Rattle.model.specs.Stores.{stored};
ghost use Rattle.model.specs.Calls.{view_of, next};
ghost use Rattle.lookup.specs.Spans.{Sound};
ghost use Rattle.mirror.specs.Tears.{first_left, page_from, torn_in};

use choice::{Choice, clean_choice, write_choice};
use group::part_of;
use lookup::{Span, unit_span};
use model::{Phase, Plan};

// The storing routine: it is lent the writable span of its own unit, from the marker on, and nothing else.
fn put(span: &mut [u8], at: usize, byte: u8)
    requires { at < length span.old }
    ensures { span.new ≡ set span.old at byte }
{
    span[at] = byte;
}

// Makes a store in a unit; the storing routine is lent the unit's span alone.
pub fn store_at(image: &mut [u8], span: Span, at: u32, byte: u8)
    requires { (span.base + at < span.end) × (span.end ≤ length image.old) }
    ensures { image.new ≡ set image.old (span.base + at) byte }
{
    let first = span.base as usize;
    let past = span.end as usize;
    put(&mut image[first..past], at as usize, byte);
}

// Each bit is the new code's where m has a 1, and the old marker's where m has a 0.
fn torn_marker(old: u8, new: u8, m: u8) -> u8
    ensures { result ≡ torn old new m }
{
    (new & m) | (old & !m)
}

// What a cut leaves of a page's first byte: a torn marker goes bit by bit, a data byte is m.
fn torn_byte(at: u32, old: u8, new: u8, m: u8) -> u8
    ensures { result ≡ first_left at old new m }
{
    if at == 0 { torn_marker(old, new, m) } else { m }
}

// The storing routine of a cut: from a place of its own unit's span on, a byte, and then those of the page after its first.
fn put_page(span: &mut [u8], from: usize, first: u8, page: &[u8])
    requires { (0 < length page.now) × (from + length page.now ≤ length span.old) }
    ensures { span.new ≡ sets span.old from (first ∷ drop 1 page.now) }
{
    span[from] = first;
    let end = from + page.len();
    span[from + 1..end].copy_from_slice(&page[1..]);
}

// Tears a store in a unit: the page around it. An offset's bits inside a page are taken off by a mask, as in `layout`.
fn tear_at(image: &mut [u8], span: Span, store: Choice, page: &[u8])
    requires { Sound span × (length page.now ≡ span.a) × (span.base + page_from span store.at + span.a ≤ span.end)
        × (span.end ≤ length image.old) }
    ensures { image.new ≡ torn_in span store.at store.byte page.now image.old }
{
    let first = span.base as usize;
    let past = span.end as usize;
    let at = store.at;
    let from = (at - (at & (span.a - 1))) as usize;
    let left = torn_byte(at, image[first + from], store.byte, page[0]);
    put_page(&mut image[first..past], from, left, page);
}

// Tears the next store of a group.
fn tear_group(plan: Plan, payload: &[u8; 256], write: u16, made: u16, image: &mut [u8], page: &[u8])
    requires { cut_number (view_of plan payload.now (Grouping write made) image.old) (length page.now) ≡ 0 }
    ensures { image.new ≡ stored plan image.old (torn_by page.now)
        (next plan payload.now image.old (Grouping write made)) }
{
    let part = part_of(plan, payload, write).unwrap();
    let span = unit_span(plan, part.unit, image.len());
    let store = write_choice(span, &payload[part.from..], made).unwrap();
    tear_at(image, span, store, page);
}

// Tears the next store of a phase, of which Cold and Ready have none. The cut is one that is not refused.
pub fn tear_on(plan: Plan, payload: &[u8; 256], phase: Phase, image: &mut [u8], page: &[u8])
    requires { cut_number (view_of plan payload.now phase image.old) (length page.now) ≡ 0 }
    ensures { image.new ≡ stored plan image.old (torn_by page.now)
        (next plan payload.now image.old phase) }
{
    match phase {
        Phase::Cold | Phase::Ready => {}
        Phase::Writing { unit, made } => {
            let span = unit_span(plan, unit, image.len());
            let store = write_choice(span, payload, made).unwrap();
            tear_at(image, span, store, page);
        }
        Phase::Recovering {
            unit,
            made,
            direction,
        } => {
            let span = unit_span(plan, unit, image.len());
            let copied = clean_choice(span, image, made, direction).unwrap();
            tear_at(image, span, copied, page);
        }
        Phase::Grouping { write, made } => tear_group(plan, payload, write, made, image, page),
    }
}
