// What is filled with zeros: the units at format, and the payload that a device holds.
#![tactic(auto)]

ghost use Rattle.std.specs.Prelude.{◌≡◌, ◌∷◌, ◌++◌, ◌-◌, ◌<◌, ◌≤◌, length, replicate};
ghost use Rattle.model.specs.Layout.{total, formatted};
ghost use Rattle.model.proofs.RefusalLaws.{PlanOk};
ghost use Rattle.model.specs.Marker.{OK};
ghost use Rattle.model.specs.Calls.{padded};

use layout::unit_length;
use marker::Marker;
use model::Plan;

// A unit as format leaves it: marker OK, and zeros.
fn format_unit(span: &mut [u8])
    requires { 0 < length span.old }
    ensures { span.new ≡ OK ∷ replicate (length span.old - 1) 0 }
{
    span.fill(0);
    span[0] = Marker::OK;
}

// All units, one after the other; what lies after them is left be.
pub fn format_units(plan: Plan, image: &mut [u8])
    requires { PlanOk plan × (total plan ≤ length image.old) }
    ensures { image.new ≡ formatted plan image.old }
{
    let mut base = 0;
    for unit in 0..plan.count {
        let end = base + unit_length(plan, unit);
        format_unit(&mut image[base..end]);
        base = end;
    }
}

// Bytes into a span, zeros after them.
pub fn fill(span: &mut [u8], bytes: &[u8])
    requires { length bytes.now ≤ length span.old }
    ensures { span.new
        ≡ bytes.now ++ replicate (length span.old - length bytes.now) 0 }
{
    span[..bytes.len()].copy_from_slice(bytes);
    span[bytes.len()..].fill(0);
}

// A payload as the device holds it: zeros after it.
pub fn zero_filled(payload: &[u8]) -> [u8; 256]
    requires { length payload.now ≤ 256 }
    ensures { result ≡ padded payload.now }
{
    let mut held = [0u8; 256];
    fill(&mut held, payload);
    held
}
