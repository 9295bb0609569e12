// A group's bytes: its members, what can be wrong with them, and the record that they give. The record of a group is the member
// count, the members, and zeros; the device holds it as its payload, and the record unit in its copies.
#![tactic(auto)]

ghost use Rattle.std.specs.Prelude.{◌≡◌, [], ◌∷◌, true, false, not, ◌||◌, ℕ, ◌≤◌, ◌<◌, leb, length, replicate, MatchResult, MatchOption};
ghost use Rattle.model.specs.Plans.{width};
ghost use Rattle.model.specs.Groups.{last, is_record, padded, split, splits, member_count, among, twice, unsplit, overlaps, narrow, payload_of, alike, given};
ghost use Rattle.model.specs.Numbers.{number_of, numbered};
ghost use Rattle.model.specs.Refusals.{◌when◌, first, bad_write};
ghost use Rattle.group.specs.Members.{Begins, Short};
ghost use Rattle.group.specs.Parts.{extent, PartOf};

use format::fill;
use layout::width_of;
use model::Plan;
use model::refusals::Refusal;

// The unit of the first member, and the bytes behind it; None where there is no byte, or the member is cut short.
pub fn first_member(plan: Plan, bytes: &[u8]) -> Option<(u16, &[u8])>
    ensures { MatchOption result (Short plan bytes.now) (λ member. Begins plan bytes.now member.0 member.1.now) }
{
    let (first, rest) = bytes.split_first()?;
    let unit = u16::from(*first);
    let (_, behind) = rest.split_at_checked(usize::from(width_of(plan, unit)))?;
    Some((unit, behind))
}

// How many bytes the first members take, so many of them, as far as there are bytes.
fn extent_of(plan: Plan, bytes: &[u8], members: u16) -> usize
    ensures { result ≡ extent plan members bytes.now }
{
    let mut rest = bytes;
    for _ in 0..members {
        let Some((_, behind)) = first_member(plan, rest) else {
            return bytes.len();
        };
        rest = behind;
    }
    bytes.len() - rest.len()
}

// How many members the bytes are, 2 to 4; 0 if they don't split into so many, of units that the plan has.
pub fn member_count(plan: Plan, bytes: &[u8]) -> u16
    ensures { result ≡ member_count plan bytes.now }
{
    let mut rest = bytes;
    let mut members: u16 = 0;
    while let Some((unit, behind)) = first_member(plan, rest) {
        if plan.count <= unit || members == 4 {
            return 0;
        }
        rest = behind;
        members += 1;
    }
    if !rest.is_empty() {
        return 0;
    }
    if members < 2 { 0 } else { members }
}

// Whether a unit is among the members that the bytes are.
fn has(plan: Plan, bytes: &[u8], unit: u16) -> bool
    ensures { (n : ℕ) → splits plan n bytes.now ≡ true → result ≡ among unit (split plan n bytes.now) }
{
    let mut rest = bytes;
    while let Some((member, behind)) = first_member(plan, rest) {
        if unit == member {
            return true;
        }
        rest = behind;
    }
    false
}

// Whether a unit is twice among them.
fn has_twice(plan: Plan, bytes: &[u8]) -> bool
    ensures { (n : ℕ) → splits plan n bytes.now ≡ true → result ≡ twice (split plan n bytes.now) }
{
    let mut rest = bytes;
    while let Some((member, behind)) = first_member(plan, rest) {
        if has(plan, behind, member) {
            return true;
        }
        rest = behind;
    }
    false
}

// The last unit, which is the record of a grouped device; 0 where there is no unit.
pub fn last_of(plan: Plan) -> u16
    ensures { result ≡ last plan }
{
    plan.count.saturating_sub(1)
}

// Whether a unit is the group record.
pub fn is_record(plan: Plan, unit: u16) -> bool
    ensures { result ≡ is_record plan unit }
{
    plan.grouped && unit == last_of(plan)
}

// Whether a unit is twice among the members, or the record is one.
fn overlap(plan: Plan, bytes: &[u8]) -> bool
    ensures { unsplit plan bytes.now ≡ false → result ≡ overlaps plan bytes.now }
{
    has_twice(plan, bytes) || (plan.grouped && has(plan, bytes, last_of(plan)))
}

// Whether there is no record, or none that holds a group of so many bytes and its count.
fn too_narrow(plan: Plan, size: usize) -> bool
    ensures { result ≡ (not plan.grouped || leb (width plan (last plan)) size) }
{
    !plan.grouped || width_of(plan, last_of(plan)) as usize <= size
}

// Refusals 19 to 21 of a group's bytes.
pub fn check_group(plan: Plan, bytes: &[u8]) -> Result<(), Refusal>
    ensures { numbered result ≡ first (19 when unsplit plan bytes.now ∷ 20 when overlaps plan bytes.now
        ∷ 21 when narrow plan bytes.now ∷ []) }
{
    if member_count(plan, bytes) == 0 {
        return Err(Refusal::BadGroup);
    }
    if overlap(plan, bytes) {
        return Err(Refusal::UnitTaken);
    }
    if too_narrow(plan, bytes.len()) {
        return Err(Refusal::NoRecord);
    }
    Ok(())
}

fn only_zeros(bytes: &[u8]) -> bool
    ensures { result ≡ alike (replicate (length bytes.now) 0) bytes.now }
{
    // by `all` the compiler keeps the place in memory, a load and a store for every byte
    for byte in bytes {
        if *byte != 0 {
            return false;
        }
    }
    true
}

// Whether bytes are a record that a group gives which refusals 19 to 21 let pass: those of the record unit, or of a payload.
pub fn stands(plan: Plan, bytes: &[u8]) -> bool
    requires { (width plan (last plan) ≤ length bytes.now) × (length bytes.now ≤ 256) }
    ensures { result ≡ given plan (padded bytes.now) }
{
    if bytes.is_empty() {
        return false;
    }
    let members = bytes[0] as u16;
    let past = 1 + extent_of(plan, &bytes[1..], members);
    let group = &bytes[1..past];
    let Ok(()) = check_group(plan, group) else {
        return false;
    };
    if member_count(plan, group) != members {
        return false;
    }
    only_zeros(&bytes[past..])
}

// The record of a group, zeros after it.
pub fn record_of(plan: Plan, bytes: &[u8]) -> [u8; 256]
    requires { length bytes.now < 256 }
    ensures { result ≡ payload_of plan bytes.now }
{
    let mut held = [0u8; 256];
    fill(&mut held[1..], bytes);
    held[0] = (member_count(plan, bytes) % 256) as u8;
    held
}

// A write of a group: its unit, and where in the payload its bytes begin, past the end where they are zeros; whether it is the last.
#[derive(Clone, Copy, Debug, PartialEq, Eq)]
pub struct Part {
    pub from: usize,
    pub unit: u16,
    pub last: bool,
}

// Write 0 is the record's, then come the members', then the one of zeros. Refused: 4, if there is no such write.
pub fn part_of(plan: Plan, payload: &[u8; 256], write: u16) -> Result<Part, Refusal>
    requires { width plan (last plan) ≤ 256 }
    ensures { MatchResult result (PartOf plan payload.now write)
        (λ refusal. number_of refusal ≡ first (4 when bad_write plan payload.now write ∷ [])) }
{
    if !stands(plan, payload) {
        return Err(Refusal::BadJob);
    }
    let members = payload[0] as u16;
    if members + 1 < write {
        return Err(Refusal::BadJob);
    }
    let unit = last_of(plan);
    if write == 0 {
        return Ok(Part {
            from: 0,
            unit,
            last: false,
        });
    }
    if write == members + 1 {
        return Ok(Part {
            from: 256,
            unit,
            last: true,
        });
    }
    let at = 1 + extent_of(plan, &payload[1..], write - 1);
    Ok(Part {
        from: at + 1,
        unit: payload[at] as u16,
        last: false,
    })
}
