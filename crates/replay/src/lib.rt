// The lists of calls that the power-cut theorem speaks of, given as bytes and made with the library's own calls; and what a console
// lives through, with the theorem as its contract.
#![tactic(auto)]

pub mod entry;

ghost use Rattle.std.specs.Prelude.{◌≡◌, length};
ghost use Rattle.model.specs.Calls.{outcome, as_started, start, format, wake};
ghost use Rattle.model.specs.PowerCut.{call, run, closed_by, repair};
ghost use Rattle.store.specs.Modelled.{modelled, Gives};
ghost use Rattle.recovery.specs.Encoding.{turns_in, calls_of};
ghost use Rattle.recovery.specs.Outage.{Fits, closed, Restored};
ghost use Rattle.replay.specs.Entries.{said};

use amount::amount_of;
use entry::{Entries, Entry, Kind};
use model::Plan;
use store::{Answer, Device};

// The turns of a ride: the first eight bytes, 0 if there are fewer.
fn turns_of(bytes: &[u8]) -> u64
    ensures { result ≡ turns_in bytes.now }
{
    match bytes.first_chunk::<8>() {
        Some(turns) => amount_of(turns),
        None => 0,
    }
}

// The call that an entry says.
pub fn call(device: Device, image: &mut [u8], asked: Entry) -> Answer
    ensures { Gives result image.new (call (said asked.entry) (outcome 0 (modelled device) image.old)) }
{
    let Entry { kind, unit, own } = asked;
    match Kind::from(kind) {
        Kind::Begin(role) => device.begin(image, role, unit, own),
        Kind::Cut => device.cut(image, own),
        Kind::Wake => device.wake(image),
        Kind::Ride => device.ride(image, turns_of(own)),
        Kind::Group => device.group(image, own),
        Kind::PaidRide => device.paid_ride(image, turns_of(own)),
        Kind::Step => device.step(image),
    }
}

// Makes the calls. The answer has the number of the last one, 0 if there is none, and the device that it left.
pub fn replay(device: Device, image: &mut [u8], calls: &[u8]) -> Answer
    ensures { Gives result image.new
        (run (calls_of calls.now) (outcome 0 (modelled device) image.old)) }
{
    let mut last = Answer { device, number: 0 };
    for entry in (Entries { bytes: calls }) {
        last = call(last.device, image, entry);
    }
    last
}

// A console up to a power cut that leaves these bytes in a page: a formatted device and any calls. The device is lost with the power.
fn until_cut(plan: Plan, image: &mut [u8], calls: &[u8], page: &[u8])
    ensures { image.new
        ≡ (run (closed_by page.now (calls_of calls.now)) (format (start plan).device image.old)).image }
{
    let started = Device::start(plan);
    let formatted = started.device.format(image);
    let last = replay(formatted.device, image, calls);
    last.device.cut(image, page);
}

// More than the longest repair takes: a cleanup of 257 steps, and five writes of 515.
const ENOUGH: u16 = 65535;

// The console after it: a start, a wake, and steps until one is refused.
fn come_back(plan: Plan, image: &mut [u8]) -> Answer
    ensures { start plan ≡ record { number = 0; device = as_started plan } → (wake (as_started plan) image.old).number ≡ 0
        → Gives result image.new (run (repair 65535) (outcome 0 (as_started plan) image.old)) }
{
    let started = Device::start(plan);
    let woken = started.device.wake(image);
    woken.device.steps(image, ENOUGH)
}

// What a console lives through: start, format, any calls, and a power cut that leaves these bytes in a page; then start, wake, and
// steps until one is refused, since the device is Ready: the exact number of steps, which the count of stores tells.
pub fn outage(plan: Plan, image: &mut [u8], calls: &[u8], page: &[u8]) -> Answer
    ensures { Fits plan image.old → length page.now ≡ plan.page
        → Restored plan image.old (closed calls.now page.now) result image.new }
{
    until_cut(plan, image, calls, page);
    come_back(plan, image)
}
