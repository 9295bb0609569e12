// The refusals: whether a call is refused, and by which of document 01's and the tickets', the first that applies.
#![tactic(auto)]

ghost use Rattle.std.specs.Prelude.{◌≡◌, [], ◌∷◌, ◌++◌, not, ◌||◌, ◌≤◌, ◌<◌, eqb, length};
ghost use Rattle.model.specs.Numbers.{numbered};
ghost use Rattle.model.specs.Refusals.{is_cold, is_ready, ◌when◌, first, device_row, inspect_number, format_number, cut_number, wake_number, step_number, read_number, begin_number};
ghost use Rattle.model.specs.Marker.{OK};
ghost use Rattle.model.specs.Layout.{marker, total, get};
ghost use Rattle.model.specs.Calls.{job_of};
ghost use Rattle.model.proofs.RefusalLaws.{PlanOk};
ghost use Rattle.refusal.specs.Seen.{seen};

use group::is_record;
use layout::{base_of, width_of};
use lookup::check_device;
use marker::Marker;
use model::refusals::Refusal;
use model::{Phase, Plan, Role};
use rights::{may_see, may_write};
use search::any_foreign;

// Wrong phase for format and wake.
fn not_cold(phase: Phase) -> bool
    ensures { result ≡ not (is_cold (job_of phase)) }
{
    phase != Phase::Cold
}

// Wrong phase for begin and read.
fn not_ready(phase: Phase) -> bool
    ensures { result ≡ not (is_ready (job_of phase)) }
{
    phase != Phase::Ready
}

// Wrong phase for step: there is no store to make.
fn idle(phase: Phase) -> bool
    ensures { result ≡ (is_cold (job_of phase) || is_ready (job_of phase)) }
{
    matches!(phase, Phase::Cold | Phase::Ready)
}

// What a call is judged by: a device's plan, payload and phase, and the lent image.
// The checks are laid out in place, `inline(always)`: else each call copies the view on the way (docs/DESIGN-PASS.md, 'Speed').
#[derive(Clone, Copy)]
pub struct View<'a> {
    pub plan: Plan,
    pub payload: &'a [u8; 256],
    pub phase: Phase,
    pub image: &'a [u8],
}

#[tactic(auto, using(crate::proofs::Laws::rows), unfolding(model::specs::Refusals::first, model::specs::Refusals::inspect_number, model::specs::Refusals::format_number, model::specs::Refusals::step_number, model::specs::Refusals::cut_number, model::specs::Refusals::wake_number, model::specs::Refusals::begin_number, model::specs::Refusals::read_number, model::specs::Layout::get))]
impl View<'_> {
    // Refusals 1 to 4, which every call gives.
    #[inline(always)]
    pub fn check_device(self) -> Result<(), Refusal>
        ensures { numbered result ≡ inspect_number (seen self.entry) }
    {
        check_device(self.plan, self.payload, self.phase, self.image.len())
    }

    // Refusals 1 to 5.
    #[inline(always)]
    fn check_phase(self, wrong: bool) -> Result<(), Refusal>
        ensures { numbered result ≡ first (device_row (seen self.entry) ++ (5 when wrong ∷ [])) }
    {
        self.check_device()?;
        if wrong {
            return Err(Refusal::WrongPhase);
        }
        Ok(())
    }

    // Refusals 1 to 4 of cut, and 18 for other than a page's number of bytes.
    #[inline(always)]
    pub fn check_cut(self, size: usize) -> Result<(), Refusal>
        ensures { numbered result ≡ cut_number (seen self.entry) size }
    {
        self.check_device()?;
        if size != usize::from(self.plan.page) {
            return Err(Refusal::WrongTear);
        }
        Ok(())
    }

    // Refusals 1 to 5 of the calls that want a Ready device.
    #[inline(always)]
    pub fn check_ready(self) -> Result<(), Refusal>
        ensures { numbered result ≡ first (device_row (seen self.entry) ++ (5 when not (is_ready (job_of self.entry.phase)) ∷ [])) }
    {
        self.check_phase(not_ready(self.phase))
    }

    // Refusals 1 to 5 of format.
    #[inline(always)]
    pub fn check_format(self) -> Result<(), Refusal>
        ensures { numbered result ≡ format_number (seen self.entry) }
    {
        self.check_phase(not_cold(self.phase))
    }

    // Refusals 1 to 5 of step.
    #[inline(always)]
    pub fn check_step(self) -> Result<(), Refusal>
        ensures { numbered result ≡ step_number (seen self.entry) }
    {
        self.check_phase(idle(self.phase))
    }

    // 8, if that unit's marker isn't OK.
    #[inline(always)]
    pub fn check_marker(self, unit: u16) -> Result<(), Refusal>
        requires { PlanOk self.plan × (total self.plan ≤ length self.image.now) × (unit < self.plan.count) }
        ensures { numbered result ≡ first (8 when not (eqb (get self.entry.plan self.entry.image.now unit marker) OK) ∷ []) }
    {
        let base = base_of(self.plan, unit);
        if self.image[base] != Marker::OK {
            return Err(Refusal::BadMarker);
        }
        Ok(())
    }

    // Refusals 1 to 6, 20, 22, 7 and 8 of begin with a payload of `size` bytes, in this order.
    #[inline(always)]
    pub fn check_begin(self, role: Role, unit: u16, size: usize) -> Result<(), Refusal>
        ensures { numbered result ≡ begin_number (seen self.entry) role unit size }
    {
        self.check_ready()?;
        if self.plan.count <= unit {
            return Err(Refusal::NoUnit);
        }
        if is_record(self.plan, unit) {
            return Err(Refusal::UnitTaken);
        }
        if !may_write(self.plan.rights, role, unit) {
            return Err(Refusal::NoRight);
        }
        if size != usize::from(width_of(self.plan, unit)) {
            return Err(Refusal::WrongSize);
        }
        self.check_marker(unit)
    }

    // Refusals 1 to 6, 22 and 8 of read, in this order.
    #[inline(always)]
    pub fn check_read(self, role: Role, unit: u16) -> Result<(), Refusal>
        ensures { numbered result ≡ read_number (seen self.entry) role unit }
    {
        self.check_ready()?;
        if unit >= self.plan.count {
            return Err(Refusal::NoUnit);
        }
        if !may_see(self.plan.rights, role, unit) {
            return Err(Refusal::NoRight);
        }
        self.check_marker(unit)
    }

    // Refusals 1 to 5 of wake, which are format's, and 14.
    #[inline(always)]
    pub fn check_wake(self) -> Result<(), Refusal>
        ensures { numbered result ≡ wake_number (seen self.entry) }
    {
        self.check_format()?;
        if any_foreign(self.plan, self.image) {
            return Err(Refusal::ForeignMarker);
        }
        Ok(())
    }
}
