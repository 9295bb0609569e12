// Brake curves from the bike maker: a text of 20 levels by 64 entries is judged in a lent scratch that holds one row, and is read
// again into the lent table once all of it is known to be good. The contracts are equations with specs/Curve.antt.
#![tactic(auto)]

ghost use Rattle.std.specs.Prelude.{◌≡◌, ◌≤◌, length};
ghost use Rattle.model.specs.Numbers.{numbered};
ghost use Rattle.curve.specs.Curve.{curve_of, load_number, loaded};

use model::refusals::Refusal;
use row::{line_check, line_into};

// Judges all lines; the first that is refused says why. A line 21 is refused too.
#[tactic(auto, using(crate::proofs::Lines::judged_first, crate::proofs::Lines::judged_on))]
fn check_lines(text: &[u8], scratch: &mut [u16]) -> Result<(), Refusal>
    requires { 64 ≤ length scratch.old }
    ensures number { numbered result ≡ (curve_of text.now).number }
    ensures size { length scratch.new ≡ length scratch.old }
{
    let mut at = 0;
    for i in 0..20 {
        at = line_check(text, at, scratch, i)?;
    }
    if at < text.len() {
        return Err(Refusal::BadLine);
    }
    Ok(())
}

// Reads all lines of a text that is known to be good into the table.
#[tactic(auto, using(crate::proofs::Lines::lines_go, crate::proofs::Lines::line_known))]
fn write_lines(text: &[u8], table: &mut [u16])
    requires { (length table.old ≡ 1280) × ((curve_of text.now).number ≡ 0) }
    ensures { (table.new ≡ (curve_of text.now).entries) × (length table.new ≡ 1280) }
{
    let mut at = 0;
    for line in 0..20 {
        at = line_into(text, at, table, line);
    }
}

// Loads a curve's text into the table. A refusal, 11, 12 or 13, leaves the table as it was. The scratch is free.
#[tactic(auto, using(crate::proofs::Room::other_table_lem, crate::proofs::Room::short_scratch_lem, crate::proofs::Room::by_text, crate::proofs::Room::refused_leaves_the_table, crate::proofs::Loaded::load_accepted, model::proofs::Numbered::number_some))]
pub fn load(text: &[u8], table: &mut [u16], scratch: &mut [u16]) -> Result<(), Refusal>
    ensures number { numbered result ≡ load_number text.now (length table.old) (length scratch.old) }
    ensures table { table.new ≡ loaded text.now table.old (length scratch.old) }
    ensures entries { length table.new ≡ length table.old }
    ensures size { length scratch.new ≡ length scratch.old }
{
    if table.len() != 1280 || scratch.len() < 64 {
        return Err(Refusal::NoRoom);
    }
    check_lines(text, scratch)?;
    write_lines(text, table);
    Ok(())
}
