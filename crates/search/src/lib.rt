// The search for a unit whose marker isn't OK, and for one whose marker is foreign. Its users are the calls of the crates above,
// which refuse first: the functions here ask that refusals 1 to 3 do not apply. They are handed plan and image apart, as those of `format`
// and `lookup` are: one type for both would be two, for an image that is read and one that is written, and no plainer.
#![tactic(auto)]

ghost use Rattle.std.specs.Prelude.{◌≡◌, ◌≤◌, ◌<◌, length};
ghost use Rattle.model.specs.Layout.{marker, total, get};
ghost use Rattle.model.specs.Marker.{is_foreign};
ghost use Rattle.model.proofs.RefusalLaws.{PlanOk};
ghost use Rattle.model.specs.Refusals.{any_foreign};
ghost use Rattle.model.specs.Calls.{cleanup_from};
ghost use Rattle.search.specs.Found.{lowest_from, found};

use layout::{base_of, unit_length};
use marker::{Marker, direction_of};
use model::{Phase, Plan};

// A unit whose marker isn't OK, with that marker.
#[derive(Clone, Copy, Debug, PartialEq, Eq)]
pub struct Bad {
    pub unit: u16,
    pub marker: u8,
}

// The lowest unit from `from` on whose marker isn't OK.
#[tactic(auto, using(crate::proofs::Search::marker_inside))]
pub fn lowest_bad(plan: Plan, image: &[u8], from: u16) -> Option<Bad>
    requires { PlanOk plan × (total plan ≤ length image.now) }
    ensures { result ≡ found plan image.now (lowest_from plan image.now from) }
{
    let mut at = base_of(plan, from);
    for unit in from..plan.count {
        let marker = image[at];
        if marker != Marker::OK {
            return Some(Bad { unit, marker });
        }
        at += unit_length(plan, unit);
    }
    None
}

// The cleanup of the lowest unit from `from` on whose marker isn't OK, or Ready.
pub fn cleanup_from(plan: Plan, image: &[u8], from: u16) -> Phase
    requires { PlanOk plan × (total plan ≤ length image.now) }
    ensures { result ≡ cleanup_from plan image.now from }
{
    match lowest_bad(plan, image, from) {
        Some(Bad { unit, marker }) => Phase::Recovering {
            unit,
            made: 0,
            direction: direction_of(marker),
        },
        None => Phase::Ready,
    }
}

// Whether a unit's marker is foreign.
#[tactic(auto, using(crate::proofs::Search::marker_inside))]
fn has_foreign(plan: Plan, image: &[u8], unit: u16) -> bool
    requires { PlanOk plan × (total plan ≤ length image.now) × (unit < plan.count) }
    ensures { result ≡ is_foreign (get plan image.now unit marker) }
{
    Marker::classify(image[base_of(plan, unit)]).is_foreign()
}

// Whether any unit's marker is foreign, so that the memory is another product's.
pub fn any_foreign(plan: Plan, image: &[u8]) -> bool
    requires { PlanOk plan × (total plan ≤ length image.now) }
    ensures { result ≡ any_foreign (λ u. get plan image.now u marker) plan.count }
{
    (0..plan.count).any(|unit| has_foreign(plan, image, unit))
}
