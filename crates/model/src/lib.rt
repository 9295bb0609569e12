// The types that the save store's meaning speaks of: the plan, the roles and their rights, the phase, inspect's answer; and the
// refusals, whose numbers are the one function here.
// The meaning stands in specs/; specs/PowerCut.antt has the power-cut theorem's statement.
#![tactic(auto)]

pub mod refusals;

// Units numbered from 0, each with its width in bytes. Widths past `count` are not looked at. The chip stores by pages of `page` bytes:
// 1, 4, 8 or 16. The last unit of a grouped device is the group record. `rights` says who may see and who may write which unit.
#[derive(Clone, Copy)]
pub struct Plan {
    pub count: u16,
    pub widths: [u16; 8],
    pub page: u16,
    pub grouped: bool,
    pub rights: Rights,
}

// Who asks for a read or a begin.
#[derive(Clone, Copy, Debug, PartialEq, Eq)]
pub enum Role {
    Rider,
    Gym,
    Service,
}

// What a role may do with a unit. The same names stand in specs/Rights.antt. Bytes, and no enum, since a plan's rights may hold any byte:
// `may_see` and `may_write` of specs/Rights.antt say of each what it is as good as.
pub const NOTHING: u8 = 0;

pub const SEE: u8 = 1;

pub const SEE_AND_WRITE: u8 = 2;

// What each role may do with each unit, a byte a unit. Any other byte is as good as NOTHING: what is not granted is refused.
#[derive(Clone, Copy)]
pub struct Rights {
    pub rider: [u8; 8],
    pub gym: [u8; 8],
    pub service: [u8; 8],
}

// The way a cleanup copies.
#[derive(Clone, Copy, Debug, PartialEq, Eq)]
pub enum Direction {
    AToB,
    BToA,
}

// What the device is at; `made` counts the stores of the job that are made, of a group those of the write that it is at.
#[derive(Clone, Copy, Debug, PartialEq, Eq)]
pub enum Phase {
    Cold,
    Ready,
    Writing {
        unit: u16,
        made: u16,
    },
    Recovering {
        unit: u16,
        made: u16,
        direction: Direction,
    },
    Grouping {
        write: u16,
        made: u16,
    },
}

// What inspect hands back: a refusal's number, a unit whose marker isn't OK, or that there is none. The definition `inspect` and what
// specs/Demands.antt says of it answer with this type, so it is no Option in a Result.
#[derive(Clone, Copy, Debug, PartialEq, Eq)]
pub enum Inspection {
    Refused(u16),
    Suspect(u16),
    AllOk,
}
