// The words that stand behind the name of a call: one read as what it stands for, or all of them as figures.
ghost use Rattle.std.specs.Prelude.{◌≡◌, ℕ, List, Option};
ghost use Rattle.words.specs.Arguments.{figures_of, count_of, leading, written, place_after, first_as, behind};
ghost use Rattle.words.specs.Cursor.{words_left};
ghost use Rattle.words.specs.Figures.{figure_of};
ghost use Rattle.words.specs.Spellings.{roughness_of, penalty_of};

use crate::cursor::Words;
use crate::figures::figure;
use crate::spellings::{PenaltyWord, RoughnessWord, penalty, roughness};

// What a word can stand for.
// Kept so: `TryFrom<&[u8]>` would want an error type for each, where a word that cannot be read is just `None`.
pub(crate) trait FromWord: Sized {
    // What each word stands for, if it can be read so.
    ghost read_as: { List ℕ → Option Self };

    fn from_word(word: &[u8]) -> Option<Self>
        ensures { result ≡ read_as word.now };
}

impl FromWord for i64 {
    ghost read_as = { figure_of };

    fn from_word(word: &[u8]) -> Option<i64> {
        figure(word)
    }
}

impl FromWord for RoughnessWord {
    ghost read_as = { roughness_of };

    fn from_word(word: &[u8]) -> Option<RoughnessWord> {
        roughness(word)
    }
}

impl FromWord for PenaltyWord {
    ghost read_as = { penalty_of };

    fn from_word(word: &[u8]) -> Option<PenaltyWord> {
        penalty(word)
    }
}

impl<'a> Words<'a> {
    // What the next word stands for; none if it can't be read so, or if no word is left.
    #[inline]
    pub(crate) fn next_as<T: FromWord>(&mut self) -> Option<T>
        ensures first { result ≡ first_as T.read_as (words_left self.old) }
        ensures others { words_left self.new ≡ behind (words_left self.old) }
    {
        let word = self.next()?;
        T::from_word(word)
    }
}

// How many figures the words are, if each of them is one.
fn count_figures(words: Words) -> Option<usize>
    ensures { result ≡ count_of (figures_of (words_left words.entry)) }
{
    let mut count = 0;
    for word in words {
        figure(word)?;
        count += 1;
    }
    Some(count)
}

// Writes the figures at the front of the words at the start of `place`, as far as they fit.
fn write_figures(mut words: Words, place: &mut [i64])
    ensures { place.new ≡ written (leading (words_left words.entry)) place.old }
{
    for slot in place.iter_mut() {
        let Some(next) = words.next_as::<i64>() else {
            return;
        };
        *slot = next;
    }
}

// How many figures the words are, if each of them is one: they are then at the start of `place`, as far as they fit.
pub(crate) fn list_figures(words: Words, place: &mut [i64]) -> Option<usize>
    ensures count { result ≡ count_of (figures_of (words_left words.entry)) }
    ensures place { place.new ≡ place_after (figures_of (words_left words.entry)) place.old }
{
    let count = count_figures(words)?;
    write_figures(words, place);
    Some(count)
}
