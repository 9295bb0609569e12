// The script reader: the lent text and the offset reached, in one record.
#![tactic(auto)]

ghost use Rattle.std.specs.Prelude.{◌≡◌, IfSome};
ghost use Rattle.reader.specs.Read.{read_at};
ghost use Rattle.reader.specs.Found.{Found};

use script::Form;

#[derive(Clone, Copy)]
pub struct Reader<'a> {
    pub text: &'a [u8],
    pub at: usize,
}

// A form that was read; its line is the text from `start` up to `end`.
#[derive(Clone, Copy)]
pub struct Read {
    pub form: Form,
    pub start: usize,
    pub end: usize,
}

// The line at an offset of the text, or None, where it is no form. This does the work of the functions below.
#[tactic(auto, unfolding(crate::specs::Read::read_at, crate::specs::Read::read_of, token::specs::Lines::line_at, token::specs::Lines::line_end))]
pub fn read_at(text: &[u8], at: usize) -> Option<Read>
    ensures { result ≡ read_at text.now at }
{
    if text.len() <= at {
        return None;
    }
    let end = token::find(text, at, text.len(), b'\n');
    let form = script::form_of(&text[at..end])?;
    Some(Read {
        form,
        start: at,
        end,
    })
}

impl<'a> Reader<'a> {
    pub fn new(text: &'a [u8], at: usize) -> Reader<'a>
        ensures { (result.text ≡ text.entry) × (result.at ≡ at) }
    {
        Reader { text, at }
    }

    // The reader's next line.
    pub fn next(self) -> Option<Read>
        ensures { result ≡ read_at self.entry.text.now self.entry.at }
    {
        read_at(self.text, self.at)
    }
}

// The line at an offset, for callers that have the text and the offset.
#[tactic(auto, using(crate::proofs::Found::read_found))]
pub fn read_line(text: &[u8], from: usize) -> Option<Read>
    ensures read { result ≡ read_at text.now from }
    ensures found { IfSome result (λ read. Found text.now from read) }
{
    Reader::new(text, from).next()
}
