// A line of a brake curve, read twice. First its form and its entries are judged, against a scratch that holds the row one level
// lower and then this one. Once the whole text is known to be good, its entries are read into the table.
// The contracts are equations with specs/Row.antt.
#![tactic(auto)]

ghost use Rattle.std.specs.Prelude.{◌≡◌, true, cond, ◌||◌, ◌&&◌, ◌++◌, [], ◌∷◌, ℕ, ◌+◌, ◌-◌, ◌*◌, ◌<◌, ◌≤◌, eqb, ltb, leb, length, take, OnOk, IfOk, MatchOption};
ghost use Rattle.model.specs.Numbers.{BAD-ENTRY, numbered};
ghost use Rattle.token.specs.Token.{lost, entry_at};
ghost use Rattle.token.specs.Lines.{line_end, line_at};
ghost use Rattle.list.specs.Items.{values_at};
ghost use Rattle.row.specs.Row.{head_at, row_at, HasEntries, row_of, in_rule, small, row_below, line_number};

use list::{Entry, items_at};
use model::refusals::Refusal;
use token::{Item, eat, entry, find, word};

// The entries of a line of the form that are left to be read: 64, less those that were.
#[derive(Drop)]
struct Entries<'a> {
    line: &'a [u8],
    at: usize,
    read: usize,
    ghost there: { HasEntries line.now at read },
}

impl Entries<'_> {
    // The next entry.
    fn next(&mut self) -> usize
        requires { self.old.read < 64 }
        ensures value { values_at entry_at self.old.line.now self.old.at (64 - self.old.read)
            ≡ result ∷ values_at entry_at self.new.line.now self.new.at (64 - self.new.read) }
        ensures read { self.new.read ≡ self.old.read + 1 }
    {
        let item = entry(self.line, self.at).unwrap();
        self.at = item.next + 1;
        self.read += 1;
        item.value
    }
}

// What stands before a line's entries: its level, and the place past it, where they begin.
#[tactic(auto, using(crate::proofs::Row::head_lost, crate::proofs::Row::level_lost))]
fn head(line: &[u8]) -> Option<Item>
    ensures { MatchOption result ((head_at line.now).next ≡ lost) (λ head. head ≡ head_at line.now) }
{
    let level = entry(line, word(line, 0, b"(level ")?)?;
    let next = word(line, level.next, b" (")?;
    Some(Item { next, ..level })
}

// A line's 64 entries, if the line is of the form.
fn row_at(line: &[u8], level: usize) -> Option<Entries<'_>>
    ensures { MatchOption result (row_at level line.now ≡ lost)
        (λ row. (row.line.now ≡ line.now) × (row.at ≡ row_at level line.now) × (row.read ≡ 0)) }
{
    let head = head(line)?;
    let row = items_at::<Entry>(line, head.next, 64)?;
    let end = eat(line, row.next, b')')?;
    if head.value == level && row.count == 64 && end == line.len() {
        Some(Entries {
            line,
            at: head.next,
            read: 0,
        })
    } else {
        None
    }
}

// The rules for an entry of the line after i others: it follows `before` on its line, and is above `lower`, the same bin one level
// lower, which level 1 has not.
fn in_rule(i: usize, lower: u16, before: usize, value: usize) -> bool
    ensures { result ≡ (leb value 4095 && leb before value && (eqb i 0 || ltb lower value)) }
{
    value <= 4095 && before <= value && (i == 0 || usize::from(lower) < value)
}

// Judges the entries of the line after i others against the row one level lower. An entry takes the place of the one that it was held
// against, since no other bin is held against that one.
fn row_check(mut entries: Entries, row: &mut [u16], i: usize) -> Result<(), Refusal>
    requires { (length row.old ≡ 64) × (entries.read ≡ 0) }
    ensures number { numbered result ≡ cond (in_rule 0 (cond (eqb i 0) [] row.old) (values_at entry_at entries.entry.line.now entries.entry.at 64)) 0 BAD-ENTRY }
    ensures row { OnOk result (row.new ≡ values_at entry_at entries.entry.line.now entries.entry.at 64) }
{
    let mut before = 0;
    for bin in row.iter_mut() {
        let value = entries.next();
        if !in_rule(i, *bin, before, value) {
            return Err(Refusal::BadEntry);
        }
        *bin = value as u16;
        before = value;
    }
    Ok(())
}

// Judges the line at an offset of the text, after i others: the offset past it. The scratch holds the row one level lower, and then
// that of a good line.
pub fn line_check(text: &[u8], at: usize, scratch: &mut [u16], i: usize) -> Result<usize, Refusal>
    requires { (i < 20) × (64 ≤ length scratch.old) }
    ensures number { numbered result ≡ line_number i text.now at (row_below i scratch.old) }
    ensures past { IfOk result (λ next. next ≡ line_end text.now at + 1) }
    ensures row { OnOk result (take 64 scratch.new ≡ row_of (i + 1) (line_at text.now at)) }
    ensures size { length scratch.new ≡ length scratch.old }
{
    if text.len() <= at {
        return Err(Refusal::BadLine);
    }
    let end = find(text, at, text.len(), b'\n');
    let line = &text[at..end];
    let entries = row_at(line, i + 1).ok_or(Refusal::BadLine)?;
    row_check(entries, &mut scratch[..64], i)?;
    Ok(end + 1)
}

// Reads a line's entries, known to be small, into the row.
fn row_into(mut entries: Entries, row: &mut [u16])
    requires { (length row.old ≡ 64) × (entries.read ≡ 0) × (small (values_at entry_at entries.line.now entries.at 64) ≡ true) }
    ensures { row.new ≡ values_at entry_at entries.entry.line.now entries.entry.at 64 }
{
    for bin in row.iter_mut() {
        *bin = entries.next() as u16;
    }
}

// Reads the line at an offset of the text, known to be good, into the table after i others. The offset past it.
pub fn line_into(text: &[u8], at: usize, table: &mut [u16], i: usize) -> usize
    requires { (i < 20) × (1280 ≤ length table.old) × (line_number i text.now at (take (64 * i) table.old) ≡ 0) }
    ensures { (result ≡ line_end text.now at + 1) × (take (64 * i + 64) table.new
        ≡ take (64 * i) table.old ++ row_of (i + 1) (line_at text.now at))
        × (length table.new ≡ length table.old) }
{
    let end = find(text, at, text.len(), b'\n');
    let line = &text[at..end];
    let head = head(line).unwrap();
    let entries = Entries {
        line,
        at: head.next,
        read: 0,
    };
    row_into(entries, &mut table[64 * i..64 * i + 64]);
    end + 1
}
