// Why a call is refused, by name. The numbers are document 01's and the tickets'; 0 is accepted. The same names stand in
// specs/Numbers.antt and in the project's README.

ghost use Rattle.std.specs.Prelude.{◌≡◌};
ghost use Rattle.model.specs.Numbers.{number_of};

#[derive(Clone, Copy, Debug, PartialEq, Eq)]
pub enum Refusal {
    // No unit, or more than eight.
    BadCount = 1,
    // One of the plan's units has a width of 0 or above 256.
    BadWidth = 2,
    // The image is shorter than all units together.
    ShortImage = 3,
    // A phase of a unit that there is not, or with as many stores made as its job has.
    BadJob = 4,
    // The call has no place in this phase.
    WrongPhase = 5,
    // No such unit.
    NoUnit = 6,
    // The payload isn't as long as the unit is wide.
    WrongSize = 7,
    // The unit's marker isn't OK.
    BadMarker = 8,
    // A level of 0 or above 20.
    BadLevel = 9,
    // A rate above 255.
    BadRate = 10,
    // A curve's table isn't 1,280 long, or its scratch is too short.
    NoRoom = 11,
    // A curve's line isn't of the form, or is missing, or is one too many.
    BadLine = 12,
    // A curve's entry is too high, falls, or isn't above the level below.
    BadEntry = 13,
    // A unit's marker is foreign: the memory is another product's.
    ForeignMarker = 14,
    // A total would exceed 64 bits.
    SumTooLarge = 15,
    // The unit isn't eight bytes wide, so it holds no total.
    NoTotal = 16,
    // A page size other than 1, 4, 8 or 16.
    BadPage = 17,
    // A cut has other than a page's number of bytes.
    WrongTear = 18,
    // Bytes that aren't two to four members of a group.
    BadGroup = 19,
    // A unit twice in a group, or the group record where another unit is asked for.
    UnitTaken = 20,
    // There is no group record, or it is too narrow.
    NoRecord = 21,
    // The role has no right to see the unit, or to write it.
    NoRight = 22,
}

impl Refusal {
    // The document's number.
    pub fn number(self) -> u16
        ensures { result ≡ number_of self }
    {
        self as u16
    }
}
