// A step, and steps in a row, on the parts of a device: the store that comes next, the phase after it, and the count.
#![tactic(auto)]

ghost use Rattle.std.specs.Prelude.{◌≡◌, ◌≤◌, ℕ, length};
ghost use Rattle.lookup.specs.Spans.{Spans, Sound};
ghost use Rattle.model.specs.declared.Phase.TheVariants.{Recovering, Grouping};
ghost use Rattle.model.specs.Layout.{total};
ghost use Rattle.model.specs.Numbers.{numbered};
ghost use Rattle.model.proofs.RefusalLaws.{PlanOk};
ghost use Rattle.group.specs.Parts.{PartOf};
ghost use Rattle.model.specs.Calls.{outcome};
ghost use Rattle.model.specs.Steps.{steps};
ghost use Rattle.advance.specs.Advances.{at, Made, StepsTo, WriteStepsTo, Advances, unit_of};

use choice::{clean_choice, write_choice};
use group::{Part, part_of};
use lookup::{Span, span_of, unit_span};
use mirror::store_at;
use model::refusals::Refusal;
use model::{Direction, Phase, Plan};
use resume::resume;
use search::cleanup_from;

// What a device is at: its phase, and how many stores are made. The plan stays; the payload is lent.
#[derive(Clone, Copy, Debug, PartialEq, Eq)]
pub struct Progress {
    pub phase: Phase,
    pub stores: u32,
}

// Makes the next store of a write of these bytes, in a unit that was looked up; whether it was the last. Refused: 4, if there is none.
fn write_next(span: Span, bytes: &[u8], made: u16, image: &mut [u8]) -> Result<bool, Refusal>
    requires { Sound span × (span.end ≤ length image.old) }
    ensures { Made span bytes.now made image.old image.new result }
{
    let choice = write_choice(span, bytes, made).ok_or(Refusal::BadJob)?;
    store_at(image, span, choice.at, choice.byte);
    Ok(choice.last)
}

// The phase after a step of a write, whose unit was looked up.
fn step_writing(
    span: Span,
    payload: &[u8],
    unit: u16,
    made: u16,
    image: &mut [u8],
) -> Result<Phase, Refusal>
    requires { Sound span × (span.end ≤ length image.old) }
    ensures { WriteStepsTo span payload.now unit made image.old image.new result }
{
    if write_next(span, payload, made, image)? {
        return Ok(Phase::Ready);
    }
    let next = made + 1;
    Ok(Phase::Writing { unit, made: next })
}

// The same of a group's write, whose place in the payload was found. After its last store comes the next write.
fn step_part(
    plan: Plan,
    part: Part,
    payload: &[u8; 256],
    write: u16,
    made: u16,
    image: &mut [u8],
) -> Result<Phase, Refusal>
    requires { PlanOk plan × (total plan ≤ length image.old) × PartOf plan payload.now write part }
    ensures { StepsTo plan payload.now payload.now (Grouping write made) image.old image.new result }
{
    let span = unit_span(plan, part.unit, image.len());
    if !write_next(span, &payload[part.from..], made, image)? {
        return Ok(Phase::Grouping {
            write,
            made: made + 1,
        });
    }
    if part.last {
        return Ok(Phase::Ready);
    }
    Ok(Phase::Grouping {
        write: write + 1,
        made: 0,
    })
}

// The same of a group. Where its write stands in the payload is looked up anew in each step.
fn step_grouping(
    plan: Plan,
    payload: &[u8; 256],
    write: u16,
    made: u16,
    image: &mut [u8],
) -> Result<Phase, Refusal>
    requires { PlanOk plan × (total plan ≤ length image.old) }
    ensures { StepsTo plan payload.now payload.now (Grouping write made) image.old image.new result }
{
    let part = part_of(plan, payload, write)?;
    step_part(plan, part, payload, write, made, image)
}

// The same of a cleanup. After its last store a unit behind this one may need one too; or a group record stands, and the payload is
// that record then.
fn step_cleaning(
    plan: Plan,
    span: Span,
    payload: &mut [u8; 256],
    unit: u16,
    made: u16,
    direction: Direction,
    image: &mut [u8],
) -> Result<Phase, Refusal>
    requires { Spans plan unit (length image.old) span }
    ensures { StepsTo plan payload.old payload.new (Recovering unit made direction) image.old image.new result }
{
    let choice = clean_choice(span, image, made, direction).ok_or(Refusal::BadJob)?;
    store_at(image, span, choice.at, choice.byte);
    if choice.last {
        let found = cleanup_from(plan, image, unit + 1);
        return Ok(resume(plan, payload, image, found));
    }
    Ok(Phase::Recovering {
        unit,
        made: made + 1,
        direction,
    })
}

// The unit of a phase; of one that has none, the first.
fn unit_of(phase: Phase) -> u16
    ensures { result ≡ unit_of phase }
{
    match phase {
        Phase::Writing { unit, .. } | Phase::Recovering { unit, .. } => unit,
        Phase::Cold | Phase::Ready | Phase::Grouping { .. } => 0,
    }
}

// The phase after a step, whose unit was looked up.
fn step_at(
    plan: Plan,
    span: Span,
    payload: &mut [u8; 256],
    phase: Phase,
    image: &mut [u8],
) -> Result<Phase, Refusal>
    requires { Spans plan (unit_of phase) (length image.old) span }
    ensures { StepsTo plan payload.old payload.new phase image.old image.new result }
{
    match phase {
        Phase::Cold | Phase::Ready => Err(Refusal::WrongPhase),
        Phase::Writing { unit, made } => step_writing(span, payload, unit, made, image),
        Phase::Recovering {
            unit,
            made,
            direction,
        } => step_cleaning(plan, span, payload, unit, made, direction, image),
        Phase::Grouping { write, made } => step_grouping(plan, payload, write, made, image),
    }
}

// A step, on the parts of a device. The plan is looked at once, whatever the phase; for a group once more. The count of stores holds
// at its largest.
pub fn advance(
    plan: Plan,
    payload: &mut [u8; 256],
    from: Progress,
    image: &mut [u8],
) -> Result<Progress, Refusal>
    ensures { Advances plan payload.old payload.new from image.old image.new result }
{
    let span = span_of(plan, unit_of(from.phase), image.len())?;
    let phase = step_at(plan, span, payload, from.phase, image)?;
    Ok(Progress {
        phase,
        stores: from.stores.saturating_add(1),
    })
}

// Up to `count` steps, ending early at a refusal: how far they came, and what ended them.
pub fn advance_by(
    plan: Plan,
    payload: &mut [u8; 256],
    from: Progress,
    image: &mut [u8],
    count: u16,
) -> (Progress, Result<(), Refusal>)
    ensures { outcome (numbered result.1) (at plan payload.new result.0) image.new
        ≡ steps count (at plan payload.old from) image.old }
{
    let mut reached = from;
    for _ in 0..count {
        match advance(plan, payload, reached, image) {
            Ok(next) => reached = next,
            Err(refusal) => return (reached, Err(refusal)),
        }
    }
    (reached, Ok(()))
}
