// What a line says: the calls that are understood, each with the words that may stand behind its name.
ghost use Rattle.std.specs.Prelude.{◌≡◌};
ghost use Rattle.words.specs.Cursor.{words_left};
ghost use Rattle.words.specs.Arguments.{place_after};
ghost use Rattle.words.specs.Grammar.{call_of, only, kinds_of, set_of, note_of, table_of, multipliers_of, listed_for, call_line, call_listed, line_of, listed_of};

use crate::arguments::list_figures;
use crate::cursor::Words;
use crate::spellings::{PenaltyWord, RoughnessWord};

// One line of text. The figures are as they stand in the text: whoever uses them says which are allowed.
#[derive(Clone, Copy, PartialEq, Eq, Debug)]
pub enum Line {
    // no words, or a comment
    Blank,
    Kinds {
        roughness: RoughnessWord,
        misfit: PenaltyWord,
        bend: PenaltyWord,
    },
    Set {
        stiffness: i64,
        allowance: i64,
    },
    Note {
        minute: i64,
        crude: i64,
        weight: i64,
    },
    // `count` figures
    // Kept so: without a heap they stand in a place that the caller lends, and there can be more than it holds.
    Table {
        count: usize,
    },
    // `count` figures behind the denominator
    Multipliers {
        denominator: i64,
        count: usize,
    },
    // anything else
    // Kept so: a blank line and one that says nothing known are lines like others, and reading cannot fail.
    Unknown,
}

// The names that a line may begin with.
#[derive(Clone, Copy)]
enum Call {
    Kinds,
    Set,
    Note,
    Table,
    Multipliers,
}

// The call that `word` names, if it names one.
fn call_named(word: &[u8]) -> Option<Call>
    ensures { result ≡ call_of word.now }
{
    match word {
        b"kinds" => Some(Call::Kinds),
        b"set" => Some(Call::Set),
        b"note" => Some(Call::Note),
        b"table" => Some(Call::Table),
        b"multipliers" => Some(Call::Multipliers),
        _ => None,
    }
}

// `line`, if no word is left.
fn closed(mut words: Words, line: Line) -> Option<Line>
    ensures { result ≡ only (words_left words.entry) line }
{
    words.next().is_none().then_some(line)
}

// Kept so: the three readers that follow are alike, but each reads other words into another case.
fn read_kinds(mut words: Words) -> Option<Line>
    ensures { result ≡ kinds_of (words_left words.entry) }
{
    let roughness = words.next_as()?;
    let misfit = words.next_as()?;
    let bend = words.next_as()?;
    closed(
        words,
        Line::Kinds {
            roughness,
            misfit,
            bend,
        },
    )
}

fn read_set(mut words: Words) -> Option<Line>
    ensures { result ≡ set_of (words_left words.entry) }
{
    let stiffness = words.next_as()?;
    let allowance = words.next_as()?;
    closed(
        words,
        Line::Set {
            stiffness,
            allowance,
        },
    )
}

fn read_note(mut words: Words) -> Option<Line>
    ensures { result ≡ note_of (words_left words.entry) }
{
    let minute = words.next_as()?;
    let crude = words.next_as()?;
    let weight = words.next_as()?;
    closed(
        words,
        Line::Note {
            minute,
            crude,
            weight,
        },
    )
}

fn read_table(words: Words, figures: &mut [i64]) -> Option<Line>
    ensures line { result ≡ table_of (words_left words.entry) }
    ensures place { figures.new ≡ place_after (listed_for Call.Table (words_left words.entry)) figures.old }
{
    let count = list_figures(words, figures)?;
    Some(Line::Table { count })
}

fn read_multipliers(mut words: Words, figures: &mut [i64]) -> Option<Line>
    ensures line { result ≡ multipliers_of (words_left words.entry) }
    ensures place { figures.new ≡ place_after (listed_for Call.Multipliers (words_left words.entry)) figures.old }
{
    let denominator = words.next_as()?;
    let count = list_figures(words, figures)?;
    Some(Line::Multipliers { denominator, count })
}

// The line that a call's name and the words behind it give, if they give one.
// Kept so: two of the five readers write figures, so a `match` and a place beside the words are plainer than a struct.
fn read_call(name: &[u8], words: Words, figures: &mut [i64]) -> Option<Line>
    ensures line { result ≡ call_line name.now (words_left words.entry) }
    ensures place { figures.new ≡ place_after (call_listed name.now (words_left words.entry)) figures.old }
{
    match call_named(name)? {
        Call::Kinds => read_kinds(words),
        Call::Set => read_set(words),
        Call::Note => read_note(words),
        Call::Table => read_table(words, figures),
        Call::Multipliers => read_multipliers(words, figures),
    }
}

// What `line` says. The figures of a table, or of multipliers behind the denominator, are written at the start of
// `figures`, as many as there is room for; the rest of that place, and all of it for any other line, stays as it is.
pub fn read_line(line: &[u8], figures: &mut [i64]) -> Line
    ensures line { result ≡ line_of line.now }
    ensures place { figures.new ≡ place_after (listed_of line.now) figures.old }
{
    let mut words = Words::new(line);
    let Some(name) = words.next() else {
        return Line::Blank;
    };
    if name.starts_with(b"#") {
        return Line::Blank;
    }
    read_call(name, words, figures).unwrap_or(Line::Unknown)
}
