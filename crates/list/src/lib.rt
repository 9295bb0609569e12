// Lists at a place of a line, over the tokens of `token`: items with single spaces between, and the bracket that ends them. As there,
// what isn't a list is None.
#![tactic(auto)]

ghost use Rattle.std.specs.Prelude.{◌≡◌, ℕ, ◌≤◌, List, length, IfSome};
ghost use Rattle.token.specs.declared.Item.{Item};
ghost use Rattle.token.specs.Token.{lost, item, found, hex_at, number_at, entry_at};
ghost use Rattle.token.proofs.Lost.{lost_hex, lost_number, lost_entry};
ghost use Rattle.list.specs.List.{listed, items_at, list_at};

use token::{Item, eat, entry, hex, number};

// What a list is made of: a token, read at a place.
pub trait Token {
    ghost reads: { List ℕ → ℕ → Item };

    fn read(line: &[u8], at: usize) -> Option<Item>
        ensures item { found result ≡ reads line.now at }
        ensures inside { IfSome result (λ item. item.next ≤ length line.now) };

    // nothing is read where nothing was
    ghost stays_lost: { (line : List ℕ) → length line ≤ lost → reads line lost ≡ item 0 lost };
}

pub struct Byte;

pub struct Number;

pub struct Entry;

impl Token for Byte {
    ghost reads = { hex_at };

    ghost stays_lost = { lost_hex };

    fn read(line: &[u8], at: usize) -> Option<Item> {
        hex(line, at)
    }
}

impl Token for Number {
    ghost reads = { number_at };

    ghost stays_lost = { lost_number };

    fn read(line: &[u8], at: usize) -> Option<Item> {
        number(line, at)
    }
}

impl Token for Entry {
    ghost reads = { entry_at };

    ghost stays_lost = { lost_entry };

    fn read(line: &[u8], at: usize) -> Option<Item> {
        entry(line, at)
    }
}

// How many items a list has, and the place past its bracket.
#[derive(Clone, Copy)]
pub struct Items {
    pub count: usize,
    pub next: usize,
}

// One to `most` items with single spaces between, and the bracket that ends them.
#[tactic(auto, using(crate::proofs::Laws::items_step, crate::proofs::Laws::items_end, crate::proofs::Laws::lost_items, token::proofs::Lost::lost_eats))]
pub fn items_at<T: Token>(line: &[u8], at: usize, most: usize) -> Option<Items>
    ensures list { listed result ≡ items_at T.reads line.now at most 0 }
    ensures bound { IfSome result (λ list. (list.count ≤ most) × (list.next ≤ length line.now)) }
{
    let mut place = at;
    for count in 0..most {
        let item = T::read(line, place)?;
        if let Some(next) = eat(line, item.next, b')') {
            return Some(Items {
                count: count + 1,
                next,
            });
        }
        place = eat(line, item.next, b' ')?;
    }
    None
}

// A list's items after its bracket, 0 to `most`, and the bracket that ends them.
#[tactic(auto, using(crate::proofs::Laws::list_empty, crate::proofs::Laws::lost_items), unfolding(crate::specs::List::list_at))]
pub fn list_at<T: Token>(line: &[u8], at: usize, most: usize) -> Option<Items>
    ensures list { listed result ≡ list_at T.reads line.now at most }
    ensures bound { IfSome result (λ list. (list.count ≤ most) × (list.next ≤ length line.now)) }
{
    match eat(line, at, b')') {
        Some(next) => Some(Items { count: 0, next }),
        None => items_at::<T>(line, at, most),
    }
}
