// What refuses a group.
#![tactic(auto)]

ghost use Rattle.std.specs.Prelude.{◌≡◌, [], ◌∷◌, false, ◌≤◌, length};
ghost use Rattle.model.specs.Numbers.{numbered};
ghost use Rattle.model.specs.Layout.{total};
ghost use Rattle.model.specs.Groups.{members, unsplit};
ghost use Rattle.model.specs.Refusals.{◌when◌, first, dirty, group_number};
ghost use Rattle.model.proofs.RefusalLaws.{PlanOk};
ghost use Rattle.refusal.specs.Seen.{seen};

use group::{first_member, last_of};
use model::refusals::Refusal;
use refusal::View;

// 8, if a member's marker isn't OK, of the members that the bytes are.
#[inline(always)]
fn check_members(view: View, bytes: &[u8]) -> Result<(), Refusal>
    requires { PlanOk view.plan × (total view.plan ≤ length view.image.now) × (unsplit view.plan bytes.now ≡ false) }
    ensures { numbered result ≡ first (8 when dirty (seen view.entry).marker (members view.entry.plan bytes.now) ∷ []) }
{
    let mut rest = bytes;
    while let Some((unit, behind)) = first_member(view.plan, rest) {
        view.check_marker(unit)?;
        rest = behind;
    }
    Ok(())
}

// Refusals 1 to 5, 19 to 21 and 8 of a group, in this order.
#[inline(always)]
#[tactic(auto, using(refusal::proofs::Laws::rows, crate::proofs::Laws::row_of_group), unfolding(model::specs::Refusals::first))]
pub fn check_group(view: View, bytes: &[u8]) -> Result<(), Refusal>
    ensures { numbered result ≡ group_number (seen view.entry) bytes.now }
{
    view.check_ready()?;
    group::check_group(view.plan, bytes)?;
    view.check_marker(last_of(view.plan))?;
    check_members(view, bytes)
}
