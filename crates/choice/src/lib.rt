// Which store comes next in a write or a cleanup: where in its unit, with which byte, and whether it is the last.
#![tactic(auto)]

ghost use Rattle.std.specs.Prelude.{◌≡◌, ◌≤◌, true, false, length, get_or};
ghost use Rattle.lookup.specs.Spans.{Sound};
ghost use Rattle.choice.specs.Picked.{Writes, Cleans};

use lookup::Span;
use marker::Marker;
use model::Direction;

// A store in a unit that was looked up: the offset in the unit's span, the byte, and whether its job is done with it.
#[derive(Clone, Copy, Debug, PartialEq, Eq)]
pub struct Choice {
    pub at: u32,
    pub byte: u8,
    pub last: bool,
}

impl Choice {
    fn more(at: u32, byte: u8) -> Choice
        ensures { result ≡ record { at = at; byte = byte; last = false } }
    {
        Choice {
            at,
            byte,
            last: false,
        }
    }

    fn last(at: u32, byte: u8) -> Choice
        ensures { result ≡ record { at = at; byte = byte; last = true } }
    {
        Choice {
            at,
            byte,
            last: true,
        }
    }
}

// A byte of a payload; past its end there are zeros.
fn byte_of(payload: &[u8], at: u32) -> u8
    ensures { result ≡ get_or payload.now at 0 }
{
    payload.get(at as usize).copied().unwrap_or(0)
}

// The next store of a write: marker A, copy A, marker B, copy B, marker OK. None after the last.
pub fn write_choice(span: Span, payload: &[u8], made: u16) -> Option<Choice>
    requires { Sound span }
    ensures { Writes span payload.now made result }
{
    let width = span.width;
    let n = made as u32;
    if n <= width {
        if n == 0 {
            return Some(Choice::more(0, Marker::A));
        }
        let i = n - 1;
        return Some(Choice::more(span.a + i, byte_of(payload, i)));
    }
    if n <= 2 * width + 1 {
        if n == width + 1 {
            return Some(Choice::more(0, Marker::B));
        }
        let j = n - (width + 2);
        return Some(Choice::more(span.b + j, byte_of(payload, j)));
    }
    if n == 2 * width + 2 {
        return Some(Choice::last(0, Marker::OK));
    }
    None
}

// The next store of a cleanup: a byte of the good copy as it is now, or marker OK. None after the last.
pub fn clean_choice(span: Span, image: &[u8], made: u16, direction: Direction) -> Option<Choice>
    requires { Sound span × (span.end ≤ length image.now) }
    ensures { Cleans span image.now direction made result }
{
    let width = span.width;
    let n = made as u32;
    if n < width {
        let a = span.a + n;
        let b = span.b + n;
        return Some(match direction {
            Direction::AToB => Choice::more(b, image[(span.base + a) as usize]),
            Direction::BToA => Choice::more(a, image[(span.base + b) as usize]),
        });
    }
    if n == width {
        return Some(Choice::last(0, Marker::OK));
    }
    None
}
