// Figures: the whole numbers that a word can write.
ghost use Rattle.std.specs.Prelude.{◌≡◌, ◌-◌, ◌^◌};
ghost use Rattle.words.specs.Figures.{size_of, figure_of};

// The number that `digits` write, if they are digits and it fits in 64 bits.
// Kept so: `parse` wants the whole word as text first, and takes up to several times as long.
fn size(digits: &[u8]) -> Option<u64>
    ensures { result ≡ size_of (2 ^ 64 - 1) digits.now }
{
    if digits.is_empty() {
        return None;
    }
    let mut sum = 0_u64;
    for byte in digits {
        if !byte.is_ascii_digit() {
            return None;
        }
        sum = sum.checked_mul(10)?.checked_add(u64::from(*byte - b'0'))?;
    }
    Some(sum)
}

// The figure that `word` writes, if it is one: an optional minus, then digits, for a number from -2^63 to 2^63 - 1.
pub fn figure(word: &[u8]) -> Option<i64>
    ensures { result ≡ figure_of word.now }
{
    match word {
        [b'-', digits @ ..] => 0_i64.checked_sub_unsigned(size(digits)?),
        digits => 0_i64.checked_add_unsigned(size(digits)?),
    }
}
