// The save store: the device and its calls. A call takes the device whole and hands back its number, which is 0 or the lowest
// refusal of document 01 that applies, and the next device. A refused call gives the device back as it came and changes no byte.
// Every contract is an equation with the definitions of crates/model/specs/Calls.antt, or, for `steps`, of Steps.antt.
#![tactic(auto)]

ghost use Rattle.std.specs.Prelude.{◌≡◌};
ghost use Rattle.model.specs.Numbers.{number_of, numbered};
ghost use Rattle.model.specs.Refusals.{read_number};
ghost use Rattle.model.specs.Calls.{view, start, format, begin, ride, group, paid_ride, step, wake, cut, read, total_of, inspect};
ghost use Rattle.model.specs.Steps.{steps};
ghost use Rattle.refusal.specs.Seen.{seen};
ghost use Rattle.store.specs.Modelled.{modelled, blanked, Gives, Starts, Shows};

use advance::{Progress, advance, advance_by};
use amount::amount_of;
use format::{format_units, zero_filled};
use group::record_of;
use grouping::check_group;
use lookup::{check_plan, copy_a};
use mirror::tear_on;
use model::refusals::Refusal;
use model::{Inspection, NOTHING, Phase, Plan, Rights, Role};
use refusal::View;
use resume::resume;
use ride::{check_ride, check_total, ridden};
use search::{cleanup_from, lowest_bad};
use till::{check_paid, fare};

// `stores` counts the completed stores, for the memory chip's rating.
#[derive(Clone, Copy)]
pub struct Device {
    pub plan: Plan,
    pub payload: [u8; 256],
    pub phase: Phase,
    pub stores: u32,
}

// Document 01 asks by name for "the number and the next device", so the refusal is its number here, and 0 is accepted.
// The device stands first: with the number before it a pass takes 130 instructions more, in copies (docs/tickets/05.md).
#[derive(Clone, Copy)]
pub struct Answer {
    pub device: Device,
    pub number: u16,
}

// The number of what a call comes to: 0, or its refusal's.
pub fn number_of(outcome: Result<(), Refusal>) -> u16
    ensures { result ≡ numbered outcome }
{
    match outcome {
        Ok(()) => 0,
        Err(refusal) => refusal.number(),
    }
}

// A device with a zero payload.
fn blank(plan: Plan, phase: Phase) -> Device
    ensures { modelled result ≡ blanked plan phase 0 }
{
    Device {
        plan,
        payload: [0u8; 256],
        phase,
        stores: 0,
    }
}

impl Device {
    // What a call is judged by. The caller's payload is a copy in a local, which the compiler leaves out; a reference into the device
    // itself would have the whole device copied first (docs/DESIGN-PASS.md, 'Speed').
    #[inline(always)]
    fn view<'a>(self, payload: &'a [u8; 256], image: &'a [u8]) -> View<'a>
        requires { payload.now ≡ self.payload }
        ensures seen { seen result ≡ view (modelled self) image.now }
        ensures plan { result.plan ≡ self.plan }
        ensures image { result.image.now ≡ image.now }
    {
        View {
            plan: self.plan,
            payload,
            phase: self.phase,
            image,
        }
    }

    // The device as it came.
    #[inline(always)]
    fn refused(self, refusal: Refusal) -> Answer
        ensures { result ≡ record { number = number_of refusal; device = self } }
    {
        Answer {
            number: refusal.number(),
            device: self,
        }
    }

    // The device at a phase, with a payload.
    #[inline(always)]
    fn at(self, phase: Phase, payload: [u8; 256]) -> Answer
        ensures { result ≡ record { number = 0; device = record { plan = self.plan; payload = payload; phase = phase; stores = self.stores } } }
    {
        Answer {
            number: 0,
            device: Device {
                payload,
                phase,
                ..self
            },
        }
    }

    // A device for a plan: Cold, with a zero payload and no store counted. Refused (1, 2, 17): the device that is all zeros but for a
    // page of 1, and grants nothing.
    pub fn start(plan: Plan) -> Answer
        ensures { Starts result (start plan) }
    {
        if let Err(refusal) = check_plan(plan) {
            let none = Plan {
                count: 0,
                widths: [0u16; 8],
                page: 1,
                grouped: false,
                rights: Rights {
                    rider: [NOTHING; 8],
                    gym: [NOTHING; 8],
                    service: [NOTHING; 8],
                },
            };
            return blank(none, Phase::Cold).refused(refusal);
        }
        Answer {
            number: 0,
            device: blank(plan, Phase::Cold),
        }
    }

    // Zeros in all units, every marker OK; the device is then Ready, with no store counted. Refused: 1 to 5.
    pub fn format(self, image: &mut [u8]) -> Answer
        ensures { Gives result image.new (format (modelled self) image.old) }
    {
        let held = self.payload;
        if let Err(refusal) = self.view(&held, image).check_format() {
            return self.refused(refusal);
        }
        format_units(self.plan, image);
        Answer {
            number: 0,
            device: blank(self.plan, Phase::Ready),
        }
    }

    // Takes the payload of a write, whose stores the steps make. Refused: 1 to 6, 20 for the group record, 22 where the role may not
    // write the unit, 7 and 8, in this order.
    pub fn begin(self, image: &[u8], role: Role, unit: u16, payload: &[u8]) -> Answer
        ensures { Gives result image.now (begin (modelled self) image.now role unit payload.now) }
    {
        let held = self.payload;
        let view = self.view(&held, image);
        if let Err(refusal) = view.check_begin(role, unit, payload.len()) {
            return self.refused(refusal);
        }
        self.at(Phase::Writing { unit, made: 0 }, zero_filled(payload))
    }

    // Takes the turns of a ride: begins a write of unit 0, of the total that it holds and the turns. Refused: 1 to 5, 16 where unit 0
    // isn't eight bytes wide, 20 where it is the group record, 8, and 15 where the sum exceeds 64 bits, in this order.
    pub fn ride(self, image: &[u8], turns: u64) -> Answer
        ensures { Gives result image.now (ride (modelled self) image.now turns) }
    {
        let held = self.payload;
        if let Err(refusal) = check_ride(self.view(&held, image), turns) {
            return self.refused(refusal);
        }
        self.at(
            Phase::Writing { unit: 0, made: 0 },
            ridden(self.plan.page, image, turns),
        )
    }

    // Takes a group: two to four members that are saved together, each a byte for its unit and that unit's payload. The steps write the
    // group record, the members in their order, and the record with zeros. Refused: 1 to 5, 19 where the bytes are not such members, 20
    // where a unit stands twice or is the record, 21 where there is no record or it is too narrow, and 8, in this order.
    pub fn group(self, image: &[u8], bytes: &[u8]) -> Answer
        ensures { Gives result image.now (group (modelled self) image.now bytes.now) }
    {
        let held = self.payload;
        if let Err(refusal) = check_group(self.view(&held, image), bytes) {
            return self.refused(refusal);
        }
        self.at(
            Phase::Grouping { write: 0, made: 0 },
            record_of(self.plan, bytes),
        )
    }

    // Takes the turns of a paid ride: the group of unit 0, with its total and the turns, and of unit 1, with its cents and the price.
    // Refused: 1 to 5, 16 where one of the two is missing or isn't eight bytes wide, 20 where unit 1 is the group record, 21 where there is
    // no record or it is too narrow, 8, and 15 where a sum exceeds 64 bits, in this order.
    pub fn paid_ride(self, image: &[u8], turns: u64) -> Answer
        ensures { Gives result image.now (paid_ride (modelled self) image.now turns) }
    {
        let held = self.payload;
        if let Err(refusal) = check_paid(self.view(&held, image), turns) {
            return self.refused(refusal);
        }
        let members = fare(self.plan, image, turns);
        let record = record_of(self.plan, &members);
        self.at(Phase::Grouping { write: 0, made: 0 }, record)
    }

    // Makes the next store of a write, a group or a cleanup, one byte, and counts it. Refused: 1 to 5.
    pub fn step(self, image: &mut [u8]) -> Answer
        ensures { Gives result image.new (step (modelled self) image.old) }
    {
        let mut payload = self.payload;
        let from = Progress {
            phase: self.phase,
            stores: self.stores,
        };
        let (reached, number) = match advance(self.plan, &mut payload, from, image) {
            Ok(next) => (next, 0),
            Err(refusal) => (from, refusal.number()),
        };
        Answer {
            number,
            device: Device {
                plan: self.plan,
                payload,
                phase: reached.phase,
                stores: reached.stores,
            },
        }
    }

    // Up to `count` steps, ending early at a refusal: for a console that has current enough for more than one store.
    pub fn steps(self, image: &mut [u8], count: u16) -> Answer
        ensures { Gives result image.new (steps count (modelled self) image.old) }
    {
        let mut payload = self.payload;
        let from = Progress {
            phase: self.phase,
            stores: self.stores,
        };
        let (last, ended) = advance_by(self.plan, &mut payload, from, image, count);
        Answer {
            number: number_of(ended),
            device: Device {
                plan: self.plan,
                payload,
                phase: last.phase,
                stores: last.stores,
            },
        }
    }

    // Begins the cleanup of the lowest unit whose marker isn't OK; else goes on with the group whose record stands, or is Ready. Stores
    // nothing. Refused: 1 to 5, and 14 where a marker is foreign.
    pub fn wake(self, image: &[u8]) -> Answer
        ensures { Gives result image.now (wake (modelled self) image.now) }
    {
        let held = self.payload;
        if let Err(refusal) = self.view(&held, image).check_wake() {
            return self.refused(refusal);
        }
        let mut payload = self.payload;
        let found = cleanup_from(self.plan, image, 0);
        let phase = resume(self.plan, &mut payload, image, found);
        self.at(phase, payload)
    }

    // The device that a power cut leaves: the page around the next store, if there is one, is torn, and has these bytes; but a marker
    // goes bit by bit. A torn store isn't counted. Refused: 1 to 4, 17, and 18 for other than a page's number of bytes.
    pub fn cut(self, image: &mut [u8], page: &[u8]) -> Answer
        ensures { Gives result image.new (cut (modelled self) image.old page.now) }
    {
        let held = self.payload;
        if let Err(refusal) = self.view(&held, image).check_cut(page.len()) {
            return self.refused(refusal);
        }
        tear_on(self.plan, &held, self.phase, image, page);
        self.at(Phase::Cold, [0u8; 256])
    }

    // Whether read is refused: 1 to 6, 22 where the role may not see the unit, or 8, in this order.
    pub fn check_read(self, image: &[u8], role: Role, unit: u16) -> Result<(), Refusal>
        ensures { numbered result ≡ read_number (view (modelled self) image.now) role unit }
    {
        let held = self.payload;
        self.view(&held, image).check_read(role, unit)
    }

    // Copy A of a unit, as a part of the image; an empty part when refused.
    pub fn read(self, image: &[u8], role: Role, unit: u16) -> &[u8]
        ensures { result.now ≡ read (modelled self) image.now role unit }
    {
        let held = self.payload;
        match self.view(&held, image).check_read(role, unit) {
            Ok(()) => copy_a(self.plan, image, unit),
            Err(_) => &image[..0],
        }
    }

    // The total that a unit holds, taken from copy A. Refused: as read, and 16 where the unit isn't eight bytes wide.
    pub fn total(self, image: &[u8], role: Role, unit: u16) -> Result<u64, Refusal>
        ensures { Shows result (total_of (modelled self) image.now role unit) }
    {
        let held = self.payload;
        check_total(self.view(&held, image), role, unit)?;
        Ok(amount_of(self.read(image, role, unit)))
    }

    // The lowest unit whose marker isn't OK, or that there is none. Refused: 1 to 4.
    pub fn inspect(self, image: &[u8]) -> Inspection
        ensures { result ≡ inspect (modelled self) image.now }
    {
        let held = self.payload;
        if let Err(refusal) = self.view(&held, image).check_device() {
            return Inspection::Refused(refusal.number());
        }
        match lowest_bad(self.plan, image, 0) {
            Some(bad) => Inspection::Suspect(bad.unit),
            None => Inspection::AllOk,
        }
    }
}
