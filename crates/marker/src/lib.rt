// The marker byte in code: its three codes, what a byte says of its unit, and which way a cleanup copies.
#![tactic(auto)]

ghost use Rattle.std.specs.Prelude.{◌≡◌};
ghost use Rattle.model.specs.Marker.{direction};
ghost use Rattle.marker.specs.Meaning.{meaning, says_foreign, way};

use model::Direction;

// What a marker byte says of its unit (the "log" of documents 000 and 001).
#[derive(Clone, Copy, Debug, PartialEq, Eq)]
pub enum Marker {
    Clean,
    WritingToA,
    WritingToB,
    Corrupted,
    Foreign,
}

impl Marker {
    pub const OK: u8 = 1;

    pub const A: u8 = 2;

    pub const B: u8 = 4;

    // From here on a byte is foreign.
    pub const FOREIGN: u8 = 8;

    #[tactic(auto, unfolding(crate::specs::Meaning::meaning))]
    // No From<u8>: document 01 asks for this function by name.
    pub fn classify(byte: u8) -> Marker
        ensures { result ≡ meaning byte }
    {
        match byte {
            Marker::OK => Marker::Clean,
            Marker::A => Marker::WritingToA,
            Marker::B => Marker::WritingToB,
            Marker::FOREIGN..=255 => Marker::Foreign,
            _ => Marker::Corrupted,
        }
    }

    // Left by another product: no store of this one, completed or torn, leaves such a byte.
    pub fn is_foreign(self) -> bool
        ensures { result ≡ says_foreign self }
    {
        self == Marker::Foreign
    }
}

// Which way a unit is cleaned up, by what its marker says.
impl From<Marker> for Direction {
    fn from(marker: Marker) -> Direction
        ensures { result ≡ way marker }
    {
        match marker {
            Marker::WritingToA => Direction::BToA,
            Marker::Clean | Marker::WritingToB | Marker::Corrupted | Marker::Foreign =>
                Direction::AToB,
        }
    }
}

// The way a cleanup copies, by the marker that it finds.
#[tactic(auto, using(crate::proofs::Laws::meaning_way))]
pub fn direction_of(marker: u8) -> Direction
    ensures { result ≡ direction marker }
{
    Direction::from(Marker::classify(marker))
}
