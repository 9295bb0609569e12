// Tokens at a place of a line: a byte, a word, a number. Each reading function is handed the line and a place in it, and
// hands back the place past what it read, or None, where that doesn't stand there. So `?` reads one token behind another.
#![tactic(auto)]

ghost use Rattle.std.specs.Prelude.{◌≡◌, ◌+◌, ◌-◌, ◌*◌, ◌<◌, ◌≤◌, ◌==◌, length, position, unwrap_or, IfSome};
ghost use Rattle.token.specs.Scan.{index_of, slice};
ghost use Rattle.token.specs.Token.{place, found, eat_at, word_at, digit_of, digit_at, extend_at, hex_at, more_at, entry_at, number_at};

// A value that was read, and the place past it.
#[derive(Clone, Copy)]
pub struct Item {
    pub value: usize,
    pub next: usize,
}

// Past one byte.
#[tactic(auto, unfolding(crate::specs::Token::eat_at))]
pub fn eat(line: &[u8], at: usize, byte: u8) -> Option<usize>
    ensures past { place result ≡ eat_at line.now at byte }
    ensures inside { IfSome result (λ next. next ≤ length line.now) }
{
    (*line.get(at)? == byte).then_some(at + 1)
}

// Past a word.
#[tactic(auto, using(crate::proofs::Lost::word_stops), unfolding(crate::specs::Token::word_at))]
pub fn word(line: &[u8], at: usize, word: &[u8]) -> Option<usize>
    ensures past { place result ≡ word_at line.now at word.now }
    ensures inside { at ≤ length line.now → IfSome result (λ next. next ≤ length line.now) }
{
    let mut past = at;
    for byte in word {
        past = eat(line, past, *byte)?;
    }
    Some(past)
}

// The value of a digit, 0 to 15.
#[tactic(auto, unfolding(crate::specs::Token::digit_of))]
fn digit_of(byte: u8) -> Option<usize>
    ensures value { unwrap_or result 16 ≡ digit_of byte }
    ensures below { IfSome result (λ digit. digit < 16) }
{
    match byte {
        b'0'..=b'9' => Some(usize::from(byte - b'0')),
        b'a'..=b'f' => Some(usize::from(byte - b'a') + 10),
        _ => None,
    }
}

// The digit at a place; a digit stands inside the line.
#[tactic(auto, unfolding(crate::specs::Token::digit_at))]
fn digit(line: &[u8], at: usize) -> Option<usize>
    ensures value { unwrap_or result 16 ≡ digit_at line.now at }
    ensures below { IfSome result (λ digit. (digit < 16) × (at < length line.now)) }
{
    digit_of(*line.get(at)?)
}

// The item with one digit more. The bounds keep base times value inside a usize.
#[tactic(auto, unfolding(crate::specs::Token::extend_at))]
fn extend(line: &[u8], base: usize, item: Item) -> Option<Item>
    requires { (base ≤ 16) × (item.value ≤ 9999) }
    ensures longer { found result ≡ extend_at line.now base item }
    ensures bound { IfSome result (λ longer. (longer.value ≤ base * item.value + (base - 1)) × (longer.next ≤ length line.now)) }
{
    let digit = digit(line, item.next)?;
    if digit < base {
        Some(Item {
            value: base * item.value + digit,
            next: item.next + 1,
        })
    } else {
        None
    }
}

// Two hexadecimal digits.
#[tactic(auto, using(crate::proofs::Lost::lost_extends), unfolding(crate::specs::Token::hex_at))]
pub fn hex(line: &[u8], at: usize) -> Option<Item>
    ensures item { found result ≡ hex_at line.now at }
    ensures bound { IfSome result (λ item. (item.value ≤ 255) × (item.next ≤ length line.now)) }
{
    let first = extend(line, 16, Item { value: 0, next: at })?;
    extend(line, 16, first)
}

// The number with one decimal digit more, if there is one. A number that begins with 0 has no more.
#[tactic(auto, unfolding(crate::specs::Token::more_at))]
fn more(line: &[u8], item: Item) -> Item
    requires { (item.value ≤ 9999) × (item.next ≤ length line.now) }
    ensures { (result ≡ more_at line.now item) × (result.value ≤ 10 * item.value + 9) × (result.next ≤ length line.now) }
{
    if item.value == 0 {
        item
    } else {
        extend(line, 10, item).unwrap_or(item)
    }
}

// A decimal number of one to five digits.
#[tactic(auto, using(crate::proofs::Lost::lost_extends, crate::proofs::Lost::lost_more), unfolding(crate::specs::Token::entry_at))]
pub fn entry(line: &[u8], at: usize) -> Option<Item>
    ensures item { found result ≡ entry_at line.now at }
    ensures bound { IfSome result (λ item. (item.value ≤ 99999) × (item.next ≤ length line.now)) }
{
    let first = extend(line, 10, Item { value: 0, next: at })?;
    Some(more(line, more(line, more(line, more(line, first)))))
}

// A decimal number, 0 to 65535, so of at most five digits.
#[tactic(auto, unfolding(crate::specs::Token::number_at, crate::specs::Token::at_most))]
pub fn number(line: &[u8], at: usize) -> Option<Item>
    ensures item { found result ≡ number_at line.now at }
    ensures bound { IfSome result (λ item. (item.value ≤ 65535) × (item.next ≤ length line.now)) }
{
    let item = entry(line, at)?;
    (item.value <= 65535).then_some(item)
}

// The index of the first byte of a kind.
fn index_of(text: &[u8], byte: u8) -> Option<usize>
    ensures { result ≡ position (λ x. x == byte) text.now }
{
    text.iter().position(|x| *x == byte)
}

// The first byte of a kind from an offset on, up to another; that other one if there is none.
#[tactic(auto, using(crate::proofs::Scan::find_part))]
pub fn find(text: &[u8], from: usize, to: usize, byte: u8) -> usize
    requires { (from ≤ to) × (to ≤ length text.now) }
    ensures { (result ≡ from + index_of byte (slice from to text.now)) × (result ≤ to) }
{
    from + index_of(&text[from..to], byte).unwrap_or(to - from)
}
