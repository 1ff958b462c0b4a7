// Finding the lines of a text that is lent: a line is what stands before a newline (10). The line finder, and over it a reader that walks
// the text: it hands on the line at its cursor as the caller's own bytes, and goes on past it. Rests on nothing.
#![tactic(auto)]

ghost use Rattle.std.specs.Prelude.{◌≡◌};
ghost use Rattle.lines.specs.Lines.{newline_from, chars_at, past_at};

pub mod stream; // stream.rt: the lines of a text that arrives in chunks

// The place of the first newline at or past a position, or the end of the text; a position past the end is given back.
#[tactic(auto, using(crate::proofs::Ahead::newline_steps))]
fn newline(text: &[u8], at: usize) -> usize
    ensures { result ≡ newline_from text.now at }
{
    if text.len() <= at {
        return at;
    }
    for i in at..text.len() {
        if text[i] == 10 {
            return i;
        }
    }
    text.len()
}

// A lent text and a cursor in it.
#[derive(Clone, Copy)]
pub struct Reader<'a> {
    pub text: &'a [u8],
    pub at: usize,
}

impl<'a> Reader<'a> {
    pub fn new(text: &'a [u8], at: usize) -> Reader<'a>
        ensures { (result.text ≡ text.entry) × (result.at ≡ at) }
    {
        Reader { text, at }
    }

    // The line at the cursor, without its newline, as a part of the lent text.
    pub fn line(self) -> &'a [u8]
        ensures { result.now ≡ chars_at self.entry.text.now self.entry.at }
    {
        let text = self.text;
        let at = self.at;
        if text.len() <= at {
            return &text[0..0];
        }
        let end = newline(text, at);
        &text[at..end]
    }

    // The reader past that line and its newline, or at the end of the text where it has none.
    pub fn past(self) -> Reader<'a>
        ensures { (result.text ≡ self.entry.text) × (result.at ≡ past_at self.entry.text.now self.entry.at) }
    {
        let text = self.text;
        let end = newline(text, self.at);
        let at = if end < text.len() { end + 1 } else { end };
        Reader { text, at }
    }
}
