// A unit looked up, and refusals 1 to 4: what plan, phase and the image's length say before a byte is read. Its users are the
// crates above it, which keep document 01's refusals in order by calling it first.
#![tactic(auto)]

ghost use Rattle.std.specs.Prelude.{◌≡◌, ◌||◌, [], ◌∷◌, Bool, leb, ◌<◌, ◌≤◌, length, MatchResult};
ghost use Rattle.model.specs.Plans.{width};
ghost use Rattle.model.specs.Groups.{last};
ghost use Rattle.model.specs.Layout.{copy_a, total, copy_of};
ghost use Rattle.model.specs.Numbers.{number_of, numbered};
ghost use Rattle.model.specs.Refusals.{grouping, bad_job, ◌when◌, first, start_number};
ghost use Rattle.model.proofs.RefusalLaws.{PlanOk};
ghost use Rattle.lookup.specs.Spans.{image_row, job_row, Spans};

use group::part_of;
use layout::{copy_length, measure, width_of};
use model::refusals::Refusal;
use model::{Phase, Plan};

// Refusals 1, 2 and 17.
pub fn check_plan(plan: Plan) -> Result<(), Refusal>
    ensures { numbered result ≡ start_number plan }
{
    measure(plan, 0)?;
    Ok(())
}

// A unit looked up: its width, its first image byte and the byte past its last, and, counted from its first byte, where each copy
// begins. The marker is the unit's first byte, and has the page before copy A.
#[derive(Clone, Copy, Debug, PartialEq, Eq)]
pub struct Span {
    pub base: u32,
    pub end: u32,
    pub a: u32,
    pub b: u32,
    pub width: u32,
}

// Refused, for an image of `length` bytes: the plan's and 3, and 4 for a unit that there is not.
pub fn span_of(plan: Plan, unit: u16, length: usize) -> Result<Span, Refusal>
    ensures { MatchResult result (Spans plan unit length)
        (λ refusal. (late : Bool) → number_of refusal ≡ job_row plan unit length late) }
{
    let whole = measure(plan, unit)?;
    if length < whole.total as usize {
        return Err(Refusal::ShortImage);
    }
    if unit >= plan.count {
        return Err(Refusal::BadJob);
    }
    let width = width_of(plan, unit);
    let copy = copy_length(width, whole.page);
    Ok(Span {
        base: whole.base,
        end: whole.base + whole.page + 2 * copy,
        a: whole.page,
        b: whole.page + copy,
        width: width as u32,
    })
}

// The same of a unit that lies in the image.
pub fn unit_span(plan: Plan, unit: u16, length: usize) -> Span
    requires { PlanOk plan × (total plan ≤ length) × (unit < plan.count) }
    ensures { Spans plan unit length result }
{
    span_of(plan, unit, length).unwrap()
}

// Copy A of a unit, as a part of the image.
pub fn copy_a(plan: Plan, image: &[u8], unit: u16) -> &[u8]
    requires { PlanOk plan × (total plan ≤ length image.now) × (unit < plan.count) }
    ensures { result.now ≡ copy_of plan image.now unit copy_a }
{
    let span = unit_span(plan, unit, image.len());
    let start = (span.base + span.a) as usize;
    let end = start + span.width as usize;
    &image[start..end]
}

// Refusal 4: a phase of no unit, or with as many stores made as the job has.
fn check_job(plan: Plan, unit: u16, made: u16, total: u32) -> Result<(), Refusal>
    ensures { numbered result ≡ first (4 when (leb plan.count unit || leb total made) ∷ []) }
{
    if plan.count <= unit {
        return Err(Refusal::BadJob);
    }
    if total <= made as u32 {
        return Err(Refusal::BadJob);
    }
    Ok(())
}

// The same of a group: a write that its payload hasn't, or with as many stores made as it has.
fn check_write(plan: Plan, payload: &[u8; 256], write: u16, made: u16) -> Result<(), Refusal>
    requires { width plan (last plan) ≤ 256 }
    ensures { numbered result ≡ first (4 when bad_job plan payload.now (grouping write made) ∷ []) }
{
    let part = part_of(plan, payload, write)?;
    let width = width_of(plan, part.unit) as u32;
    if 2 * width + 3 <= made as u32 {
        return Err(Refusal::BadJob);
    }
    Ok(())
}

// Refusals 1 to 4, for an image of `length` bytes. The payload is looked at in a group phase only.
pub fn check_device(
    plan: Plan,
    payload: &[u8; 256],
    phase: Phase,
    length: usize,
) -> Result<(), Refusal>
    ensures { numbered result ≡ first (image_row plan payload.now phase length) }
{
    let whole = measure(plan, 0)?;
    let total = whole.total as usize;
    if length < total {
        return Err(Refusal::ShortImage);
    }
    match phase {
        Phase::Cold | Phase::Ready => Ok(()),
        Phase::Writing { unit, made } => {
            let width = width_of(plan, unit) as u32;
            check_job(plan, unit, made, 2 * width + 3)
        }
        Phase::Recovering { unit, made, .. } => {
            let width = width_of(plan, unit) as u32;
            check_job(plan, unit, made, width + 1)
        }
        Phase::Grouping { write, made } => check_write(plan, payload, write, made),
    }
}
