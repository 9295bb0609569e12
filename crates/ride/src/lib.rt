// Rides: the turns of a ride are added to the total that unit 0 holds. What refuses a ride and a total, and what a ride writes.
#![tactic(auto)]

ghost use Rattle.std.specs.Prelude.{◌≡◌, ◌+◌, ◌≤◌, length, take, drop};
ghost use Rattle.model.specs.Numbers.{numbered};
ghost use Rattle.model.specs.Layout.{copy_a, copy_of};
ghost use Rattle.model.specs.Turns.{amount, plus};
ghost use Rattle.model.specs.Refusals.{ride_number, total_number};
ghost use Rattle.model.specs.Calls.{padded};
ghost use Rattle.refusal.specs.Seen.{seen};

use amount::{amount_of, bytes_of};
use format::zero_filled;
use group::is_record;
use layout::width_of;
use model::Role;
use model::refusals::Refusal;
use refusal::View;

// Refusals 1 to 5, 16, 20, 8 and 15 of a ride, in this order.
#[inline(always)]
#[tactic(auto, using(refusal::proofs::Laws::rows, crate::proofs::Laws::first_unit, crate::proofs::Laws::eight_inside, crate::proofs::Laws::eight_from, crate::proofs::Laws::held_amount), unfolding(model::specs::Refusals::first, model::specs::Refusals::ride_number))]
pub fn check_ride(view: View, turns: u64) -> Result<(), Refusal>
    ensures { numbered result ≡ ride_number (seen view.entry) (copy_of view.entry.plan view.entry.image.now 0 copy_a) turns }
{
    view.check_ready()?;
    if width_of(view.plan, 0) != 8 {
        return Err(Refusal::NoTotal);
    }
    if is_record(view.plan, 0) {
        return Err(Refusal::UnitTaken);
    }
    view.check_marker(0)?;
    let first = usize::from(view.plan.page);
    let total = amount_of(&view.image[first..first + 8]);
    total.checked_add(turns).ok_or(Refusal::SumTooLarge)?;
    Ok(())
}

// The payload of an accepted ride: unit 0's total in copy A, which begins after the marker's page, and the turns.
#[tactic(auto, using(crate::proofs::Laws::eight_from), unfolding(model::specs::Turns::plus))]
pub fn ridden(page: u16, image: &[u8], turns: u64) -> [u8; 256]
    requires { (page + 8 ≤ length image.now) × (amount (take 8 (drop page image.now)) + turns ≤ 18446744073709551615) }
    ensures { result ≡ padded (plus (take 8 (drop page image.now)) turns) }
{
    let first = usize::from(page);
    let before = amount_of(&image[first..first + 8]);
    zero_filled(&bytes_of(before + turns))
}

// Refusals of a unit's total: read's, and then 16.
#[inline(always)]
#[tactic(auto, using(refusal::proofs::Laws::rows), unfolding(model::specs::Refusals::first, model::specs::Refusals::read_number, model::specs::Refusals::total_number))]
pub fn check_total(view: View, role: Role, unit: u16) -> Result<(), Refusal>
    ensures { numbered result ≡ total_number (seen view.entry) role unit }
{
    view.check_read(role, unit)?;
    if width_of(view.plan, unit) != 8 {
        return Err(Refusal::NoTotal);
    }
    Ok(())
}
