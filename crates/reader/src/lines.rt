// The first layer: the lines of a file.
ghost use Rattle.std.specs.Prelude.{◌≡◌, ℕ, ◌+◌, ◌^◌, ◌<◌, ◌≤◌, true, false, length, take, MatchResult, ◌≢◌, slice_index};
ghost use Rattle.std.proofs.Props.{props};
ghost use Rattle.digits.specs.Fields.{is_digit, Digits};
ghost use Rattle.reader.specs.Lines.{Whole, FirstBroken, is_known, Known};

use crate::fault::{Fault, Layer};
use digits::is_digit;
use kinds::refusal::Cause;

fn is_known(byte: u8) -> bool
    ensures { result ≡ is_known byte }
{
    is_digit(byte) || byte == b'\n'
}

// Whether all bytes are digits or end bytes. It goes over all of them, so that it takes many bytes at a time: `all`,
// which stops at the first that is not, took nine times as long.
fn all_known(bytes: &[u8]) -> bool
    ensures { result ≡ true → Known bytes.now }
{
    bytes
        .iter()
        .fold(true, |known, byte| known & is_known(*byte))
}

// Where the first end byte stands, or how many bytes there are.
fn line_end(bytes: &[u8]) -> usize
    ensures within { result ≤ length bytes.now }
    ensures before { (k : ℕ) → k < result → slice_index bytes.now k ≢ 10 }
    ensures stops { result < length bytes.now → slice_index bytes.now result ≡ 10 }
{
    bytes
        .iter()
        .position(|byte| *byte == b'\n')
        .unwrap_or(bytes.len())
}

// Where the first byte stands that is no digit, or how many bytes there are.
fn digits_end(bytes: &[u8]) -> usize
    ensures within { result ≤ length bytes.now }
    ensures before { (k : ℕ) → k < result → is_digit (slice_index bytes.now k) ≡ true }
    ensures stops { result < length bytes.now → is_digit (slice_index bytes.now result) ≡ false }
{
    bytes
        .iter()
        .position(|byte| !is_digit(*byte))
        .unwrap_or(bytes.len())
}

// Hands out one line after the other, without its end byte.
// Kept so: no `Iterator`, since `?` on the next line, with the count beside it, is plainer than a `for` over results.
#[derive(Clone, Copy)]
pub(crate) struct Lines<'a> {
    // what is left of the file
    rest: &'a [u8],
    // how many lines were handed out
    pub taken: usize,
    // whether only digits and end bytes are left, as far as it was looked at
    known: bool,
    ghost room: { taken + length rest.now < 2 ^ 64 },
    ghost looked: { known ≡ true → Known rest.now } by { Prim.hlevel props },
}

impl<'a> Lines<'a> {
    ghost use Rattle.reader.specs.Turns.{Next};

    // The lines of a file, `known` where all its bytes are digits or end bytes.
    // Kept so: who calls knows already whether all bytes are known, so that they are not looked at twice.
    pub(crate) fn new(file: &'a [u8], known: bool) -> Lines<'a>
        requires { known ≡ true → Known file.now }
        ensures rest { result.rest.now ≡ file.now }
        ensures taken { result.taken ≡ 0 }
    {
        Lines {
            rest: file,
            taken: 0,
            known,
        }
    }

    // How many digits stand at the start. Where all bytes are known, the end byte alone is looked for.
    fn leading_digits(&self) -> usize
        ensures within { result ≤ length self.now.rest.now }
        ensures digits { Digits (take result self.now.rest.now) }
        ensures stops { result < length self.now.rest.now → is_digit (slice_index self.now.rest.now result) ≡ false }
    {
        if self.known {
            line_end(self.rest)
        } else {
            digits_end(self.rest)
        }
    }

    // The next line, or none where nothing is left.
    pub(crate) fn next_line(&mut self) -> Result<Option<&'a [u8]>, Fault>
        ensures { Next self.old self.new result }
    {
        if self.rest.is_empty() {
            return Ok(None);
        }
        let end = self.leading_digits();
        if end == self.rest.len() || self.rest[end] != b'\n' || end < 2 || end > 60 {
            return Err(Fault::found_by(Layer::Lines, Cause::Line, self.taken + 1));
        }
        let (line, more) = self.rest.split_at(end);
        self.rest = &more[1..];
        self.taken += 1;
        Ok(Some(line))
    }
}

// All lines of a file.
pub(crate) fn check_lines(file: &[u8]) -> Result<(), Fault>
    ensures { MatchResult result (λ _. Whole file.now) (λ f. FirstBroken file.now f) }
{
    let mut lines = Lines::new(file, all_known(file));
    while let Some(_line) = lines.next_line()? {}
    if lines.taken == 0 {
        return Err(Fault::found_by(Layer::Lines, Cause::Line, 1));
    }
    Ok(())
}
