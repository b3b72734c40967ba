// The lines of a text.
ghost use Rattle.std.specs.Prelude.{◌≡◌, length};
ghost use Rattle.std.specs.Iterator.{at_most};
ghost use Rattle.words.specs.Lines.{NextLine};

use crate::cursor::cut;

// The byte that ends a line.
const END: &[u8] = b"\n";

// The lines of a text, from the first that was not handed out yet.
#[derive(Clone, Copy)]
pub struct Lines<'a> {
    rest: &'a [u8],
}

impl<'a> Lines<'a> {
    pub fn new(text: &'a [u8]) -> Lines<'a>
        ensures { result.rest.now ≡ text.now }
    {
        Lines { rest: text }
    }
}

impl<'a> Iterator for Lines<'a> {
    type Item = &'a [u8];

    ghost next_gives = { λ lines line left. NextLine lines.rest.now line left.rest.now };

    ghost remaining = { λ lines. at_most (length lines.rest.now) };

    // The next line without its end, as a part of the text; none after the last. The last line may lack its end.
    fn next(&mut self) -> Option<&'a [u8]> {
        if self.rest.is_empty() {
            return None;
        }
        let (line, rest) = cut(self.rest, END);
        self.rest = rest;
        Some(line)
    }
}
