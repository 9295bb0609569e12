// A list of calls as bytes (crates/recovery/specs/Encoding.antt), read entry by entry.

ghost use Rattle.std.specs.Prelude.{◌≡◌, ℕ, List};
ghost use Rattle.std.specs.Iterator.{YieldsFirstBy, item_count};
ghost use Rattle.recovery.specs.Encoding.{call_of};
ghost use Rattle.replay.specs.Entries.{named, said, calls_left};

use model::Role;

// What an entry's first byte says.
#[derive(Clone, Copy, Debug, PartialEq, Eq)]
pub enum Kind {
    Begin(Role),
    Cut,
    Wake,
    Ride,
    Group,
    PaidRide,
    Step,
}

impl From<u8> for Kind {
    ghost from_gives = { λ byte kind. (unit : ℕ) (own : List ℕ) → named kind unit own ≡ call_of byte unit own };

    #[tactic(auto, unfolding(recovery::specs::Encoding::call_of))]
    fn from(byte: u8) -> Kind {
        match byte {
            1 => Kind::Begin(Role::Service),
            2 => Kind::Cut,
            3 => Kind::Wake,
            4 => Kind::Ride,
            5 => Kind::Group,
            8 => Kind::Begin(Role::Rider),
            9 => Kind::Begin(Role::Gym),
            10 => Kind::PaidRide,
            _ => Kind::Step,
        }
    }
}

// A call's kind, its unit, which only a begin looks at, and bytes of its own.
#[derive(Clone, Copy)]
pub struct Entry<'a> {
    pub kind: u8,
    pub unit: u16,
    pub own: &'a [u8],
}

// The entries of a list. Bytes at its end that are too few for one are none.
#[derive(Drop)]
pub struct Entries<'a> {
    pub bytes: &'a [u8],
}

impl<'a> Iterator for Entries<'a> {
    type Item = Entry<'a>;

    ghost next_gives = { YieldsFirstBy said calls_left };

    ghost remaining = { item_count calls_left };

    fn next(&mut self) -> Option<Entry<'a>> {
        let (head, rest) = self.bytes.split_first_chunk::<5>()?;
        let [kind, unit_high, unit_low, size_high, size_low] = *head;
        let unit = u16::from_be_bytes([unit_high, unit_low]);
        let size = u16::from_be_bytes([size_high, size_low]);
        let (own, rest) = rest.split_at_checked(usize::from(size))?;
        self.bytes = rest;
        Some(Entry { kind, unit, own })
    }
}
