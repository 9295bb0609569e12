// Paid rides: what a ride costs, what refuses a paid ride, and the group that it saves: the turns in unit 0, the cents in unit 1.
#![tactic(auto)]

ghost use Rattle.std.specs.Prelude.{◌≡◌, not, ◌||◌, [], ◌∷◌, ◌++◌, ◌+◌, ◌≤◌, ◌<◌, eqb, ltb};
ghost use Rattle.model.specs.Numbers.{numbered};
ghost use Rattle.model.specs.Marker.{OK};
ghost use Rattle.model.specs.Layout.{copy_a, width, copy_of};
ghost use Rattle.model.specs.Turns.{amount};
ghost use Rattle.model.specs.Groups.{last};
ghost use Rattle.model.specs.Prices.{price, paid_group};
ghost use Rattle.model.specs.Refusals.{◌when◌, first, no_till, paid_number};
ghost use Rattle.refusal.specs.Seen.{seen};
ghost use Rattle.till.specs.Room.{Room};

use amount::{amount_of, bytes_of};
use group::{is_record, last_of};
use layout::width_of;
use lookup::copy_a;
use model::Plan;
use model::refusals::Refusal;
use refusal::View;

// 25 cents and 7 for each started 500 turns, at most 900.
#[tactic(auto, unfolding(model::specs::Prices::price))]
pub fn price(turns: u64) -> u64
    ensures { result ≡ price turns }
{
    if turns == 0 {
        return 0;
    }
    (25 + 7 * turns.div_ceil(500)).min(900)
}

// Whether the turns or the cents have no unit that is eight bytes wide.
fn no_till(plan: Plan) -> bool
    ensures { result ≡ no_till plan }
{
    plan.count <= 1 || width_of(plan, 0) != 8 || width_of(plan, 1) != 8
}

// Whether the group record is missing or narrower than a paid ride's: the member count, and twice a unit and its eight bytes.
fn no_record(plan: Plan) -> bool
    ensures { result ≡ (not plan.grouped || ltb (width plan (last plan)) 19) }
{
    !plan.grouped || width_of(plan, last_of(plan)) < 19
}

// 8, if the marker of the record, of unit 0 or of unit 1 isn't OK.
#[inline(always)]
#[tactic(auto, using(refusal::proofs::Laws::rows, crate::proofs::Laws::room), unfolding(model::specs::Refusals::first))]
fn check_marks(view: View) -> Result<(), Refusal>
    requires { Room view.plan view.image.now }
    ensures { let mark = (seen view.entry).marker in numbered result ≡ first (8 when (not (eqb (mark (last view.entry.plan)) OK)
        || (not (eqb (mark 0) OK) || not (eqb (mark 1) OK))) ∷ []) }
{
    view.check_marker(last_of(view.plan))?;
    view.check_marker(0)?;
    view.check_marker(1)
}

// The total that unit 0 or 1 holds in copy A.
#[tactic(auto, using(crate::proofs::Laws::room))]
fn held(plan: Plan, image: &[u8], unit: u16) -> u64
    requires { Room plan image.now × (unit < 2) }
    ensures { result ≡ amount (copy_of plan image.now unit copy_a) }
{
    amount_of(copy_a(plan, image, unit))
}

// 15, if one of the two sums exceeds 64 bits.
#[tactic(auto, using(refusal::proofs::Laws::rows), unfolding(model::specs::Refusals::first))]
fn check_sums(plan: Plan, image: &[u8], turns: u64) -> Result<(), Refusal>
    requires { Room plan image.now }
    ensures { numbered result ≡ first (15 when (ltb 18446744073709551615 (amount (copy_of plan image.now 0 copy_a) + turns)
        || ltb 18446744073709551615 (amount (copy_of plan image.now 1 copy_a) + price turns)) ∷ []) }
{
    let total = held(plan, image, 0);
    total.checked_add(turns).ok_or(Refusal::SumTooLarge)?;
    let cents = held(plan, image, 1);
    cents.checked_add(price(turns)).ok_or(Refusal::SumTooLarge)?;
    Ok(())
}

// Refusals 1 to 5, 16, 20, 21, 8 and 15 of a paid ride, in this order.
#[inline(always)]
#[tactic(auto, using(refusal::proofs::Laws::rows, crate::proofs::Laws::fare_room), unfolding(model::specs::Refusals::first, model::specs::Refusals::paid_number))]
pub fn check_paid(view: View, turns: u64) -> Result<(), Refusal>
    ensures { numbered result ≡ paid_number (seen view.entry)
        (copy_of view.entry.plan view.entry.image.now 0 copy_a) (copy_of view.entry.plan view.entry.image.now 1 copy_a) turns }
{
    view.check_ready()?;
    if no_till(view.plan) {
        return Err(Refusal::NoTotal);
    }
    if is_record(view.plan, 1) {
        return Err(Refusal::UnitTaken);
    }
    if no_record(view.plan) {
        return Err(Refusal::NoRecord);
    }
    check_marks(view)?;
    check_sums(view.plan, view.image, turns)
}

// Two members: unit 0 and unit 1, each with its eight bytes.
fn members(total: &[u8; 8], cents: &[u8; 8]) -> [u8; 18]
    ensures { result ≡ 0 ∷ (total.now ++ (1 ∷ cents.now)) }
{
    let mut bytes = [0u8; 18];
    bytes[10..].copy_from_slice(cents);
    bytes[9] = 1;
    bytes[1..9].copy_from_slice(total);
    bytes
}

// The group of an accepted paid ride: the total in unit 0 and the turns, the cents in unit 1 and the price.
#[tactic(auto, unfolding(model::specs::Prices::paid_group, model::specs::Turns::plus))]
pub fn fare(plan: Plan, image: &[u8], turns: u64) -> [u8; 18]
    requires { Room plan image.now × (amount (copy_of plan image.now 0 copy_a) + turns ≤ 18446744073709551615)
        × (amount (copy_of plan image.now 1 copy_a) + price turns ≤ 18446744073709551615) }
    ensures { result ≡ paid_group (copy_of plan image.now 0 copy_a) (copy_of plan image.now 1 copy_a) turns }
{
    let total = bytes_of(held(plan, image, 0) + turns);
    let cents = bytes_of(held(plan, image, 1) + price(turns));
    members(&total, &cents)
}
