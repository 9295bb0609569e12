// What a role may do with a unit: the plan's table of rights, looked up. What is not granted is refused.
#![tactic(auto)]

ghost use Rattle.std.specs.Prelude.{◌≡◌, ◌++◌, ◌-◌, ◌≤◌, length, replicate};
ghost use Rattle.model.specs.Rights.{line, right, may_see, may_write, service_rights};

use model::{NOTHING, Plan, Rights, Role, SEE, SEE_AND_WRITE};

// A role's line of the table, a byte a unit.
fn line_of(rights: Rights, role: Role) -> [u8; 8]
    ensures { result ≡ line rights role }
{
    match role {
        Role::Rider => rights.rider,
        Role::Gym => rights.gym,
        Role::Service => rights.service,
    }
}

// The table's byte for a role and a unit; there is none past the eighth. A byte, and not an enum: a table may hold any byte, and
// "any other byte is as good as NOTHING" is promised, so an enum would ask more of who makes one.
#[tactic(auto, unfolding(model::specs::Rights::right))]
fn right_of(rights: Rights, role: Role, unit: u16) -> u8
    ensures { result ≡ right rights role unit }
{
    let line = line_of(rights, role);
    line.get(usize::from(unit)).copied().unwrap_or(NOTHING)
}

#[tactic(auto, unfolding(model::specs::Rights::may_write))]
pub fn may_write(rights: Rights, role: Role, unit: u16) -> bool
    ensures { result ≡ may_write rights role unit }
{
    right_of(rights, role, unit) == SEE_AND_WRITE
}

#[tactic(auto, unfolding(model::specs::Rights::may_see, model::specs::Rights::may_write))]
pub fn may_see(rights: Rights, role: Role, unit: u16) -> bool
    ensures { result ≡ may_see rights role unit }
{
    matches!(right_of(rights, role, unit), SEE | SEE_AND_WRITE)
}

// A table for the workshop: every right for service, none for anyone else.
pub fn service_rights() -> Rights
    ensures { result ≡ service_rights }
{
    Rights {
        rider: [NOTHING; 8],
        gym: [NOTHING; 8],
        service: [SEE_AND_WRITE; 8],
    }
}

// A plan for the workshop: a unit for each of the widths, and those rights.
pub fn service_plan(widths: &[u16], page: u16, grouped: bool) -> Plan
    requires { length widths.now ≤ 8 }
    ensures { result ≡ record {
      count = length widths.now;
      widths = widths.now ++ replicate (8 - length widths.now) 0;
      page = page;
      grouped = grouped;
      rights = service_rights;
    } }
{
    let mut eight = [0; 8];
    eight[..widths.len()].copy_from_slice(widths);
    Plan {
        count: widths.len() as u16,
        widths: eight,
        page,
        grouped,
        rights: service_rights(),
    }
}
