// How a line is cut into words.
ghost use Rattle.std.specs.Prelude.{◌≡◌};
ghost use Rattle.std.specs.Iterator.{item_count};
ghost use Rattle.words.specs.Words.{Cut, NextWord};
ghost use Rattle.words.specs.Cursor.{words_left};

// The bytes that stand between words: a space, a tab, a carriage return.
const GAPS: &[u8] = b" \t\r";

// What stands before the first of the marks, and what stands after it.
pub(crate) fn cut<'a>(text: &'a [u8], marks: &[u8]) -> (&'a [u8], &'a [u8])
    ensures { Cut marks.now text.now result.0.now result.1.now }
{
    match text.iter().position(|byte| marks.contains(byte)) {
        Some(i) => (&text[..i], &text[i + 1..]),
        None => (text, b""),
    }
}

// The words of a line, from the first that was not handed out yet.
// Kept so: no `impl Model` hides the bytes, since a type with a model and a lifetime can't be `Copy`.
#[derive(Clone, Copy)]
pub struct Words<'a> {
    rest: &'a [u8],
}

impl<'a> Words<'a> {
    pub fn new(line: &'a [u8]) -> Words<'a>
        ensures { result.rest.now ≡ line.now }
    {
        Words { rest: line }
    }
}

impl<'a> Iterator for Words<'a> {
    type Item = &'a [u8];

    ghost next_gives = { λ words word left. NextWord words.rest.now word left.rest.now };

    ghost remaining = { item_count words_left };

    // The next word, as a part of the line; none after the last.
    fn next(&mut self) -> Option<&'a [u8]> {
        while !self.rest.is_empty() {
            let (word, rest) = cut(self.rest, GAPS);
            self.rest = rest;
            if !word.is_empty() {
                return Some(word);
            }
        }
        None
    }
}
