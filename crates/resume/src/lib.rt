// Where a repair goes on: a group record that stands once every marker is OK.
#![tactic(auto)]

ghost use Rattle.std.specs.Prelude.{◌≡◌, ◌≤◌, length};
ghost use Rattle.model.specs.Layout.{total};
ghost use Rattle.model.specs.Calls.{resumed, reloaded};
ghost use Rattle.model.proofs.RefusalLaws.{PlanOk};

use format::fill;
use group::{last_of, stands};
use lookup::copy_a;
use model::{Phase, Plan};

// The phase after a search for a cleanup: that which it found, or the first member of a standing record, which the payload then is.
#[tactic(auto, using(crate::proofs::Laws::of_record), unfolding(model::specs::Calls::resumes, model::specs::Groups::stands))]
pub fn resume(plan: Plan, payload: &mut [u8; 256], image: &[u8], found: Phase) -> Phase
    requires { PlanOk plan × (total plan ≤ length image.now) }
    ensures { (result ≡ resumed plan image.now found)
        × (payload.new ≡ reloaded plan image.now found payload.old) }
{
    if found != Phase::Ready || !plan.grouped {
        return found;
    }
    let record = copy_a(plan, image, last_of(plan));
    if !stands(plan, record) {
        return found;
    }
    fill(payload, record);
    Phase::Grouping { write: 1, made: 0 }
}
