// The words that name a kind of roughness or a kind of penalty.
ghost use Rattle.std.specs.Prelude.{◌≡◌};
ghost use Rattle.words.specs.Spellings.{roughness_of, sides_of, penalty_of};

use crate::cursor::cut;
use crate::figures::figure;

// A kind of roughness, with how often it is raised: 0 to 3 times, 0 to 2 times.
#[derive(Clone, Copy, PartialEq, Eq, Debug)]
pub enum RoughnessWord {
    First(u8),
    Slope(u8),
}

// A kind of penalty. Its figures are as they stand in the text: whoever uses them says which are allowed.
#[derive(Clone, Copy, PartialEq, Eq, Debug)]
pub enum PenaltyWord {
    Absolute,
    Lopsided { rise: i64, fall: i64 },
}

// The roughness that `word` names, if it names one.
pub fn roughness(word: &[u8]) -> Option<RoughnessWord>
    ensures { result ≡ roughness_of word.now }
{
    match word {
        b"first" => Some(RoughnessWord::First(0)),
        b"first+1" => Some(RoughnessWord::First(1)),
        b"first+2" => Some(RoughnessWord::First(2)),
        b"first+3" => Some(RoughnessWord::First(3)),
        b"slope" => Some(RoughnessWord::Slope(0)),
        b"slope+1" => Some(RoughnessWord::Slope(1)),
        b"slope+2" => Some(RoughnessWord::Slope(2)),
        _ => None,
    }
}

// The lopsided penalty with two sides, if these are a figure, a colon and a figure.
fn lopsided(sides: &[u8]) -> Option<PenaltyWord>
    ensures { result ≡ sides_of sides.now }
{
    let (before, after) = cut(sides, b":");
    let rise = figure(before)?;
    let fall = figure(after)?;
    Some(PenaltyWord::Lopsided { rise, fall })
}

// The penalty that `word` names, if it names one.
pub fn penalty(word: &[u8]) -> Option<PenaltyWord>
    ensures { result ≡ penalty_of word.now }
{
    if word == b"absolute".as_slice() {
        return Some(PenaltyWord::Absolute);
    }
    lopsided(word.strip_prefix(b"lopsided:")?)
}
