// Reading into memory that the caller lends.
#![tactic(auto)]

ghost use Rattle.std.specs.Prelude.{◌≡◌, ◌<◌, ◌≤◌, length, take, IfOk};
ghost use Rattle.std.specs.Io.KnownBytes.{Consumes, IsAtEnd};

use std::io;

// Reads until the room is full or the input ends, and tells how many bytes were read. They stand at the front of the room.
// Where a read fails, what it left there is not told.
pub fn read_full<R: io::Read>(from: &mut R, room: &mut [u8]) -> io::Result<usize>
    ensures inside { IfOk result (λ count. count ≤ length room.new) }
    ensures bytes { IfOk result (λ count. Consumes (R.remaining from.old) (R.remaining from.new)
        (take count room.new)) }
    ensures end { IfOk result (λ count. count < length room.new → IsAtEnd (R.remaining from.new)) }
    ensures size { length room.new ≡ length room.old }
{
    let mut count = 0;
    // No `for` counts this: each read fills as much as it will.
    while count < room.len() {
        let more = from.read(&mut room[count..])?;
        if more == 0 {
            return Ok(count);
        }
        count += more;
    }
    Ok(count)
}
