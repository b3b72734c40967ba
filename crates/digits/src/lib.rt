// Fields of a fixed width in the hexadecimal digits 0-9 and A-F.
#![tactic(auto)]

ghost use Rattle.std.specs.Prelude.{◌≡◌, ◌<◌, ◌≤◌, true, length};
ghost use Rattle.digits.specs.Fields.{digit, is_digit, Digits, field, Number, Reads};

// The digit that stands for a number below 16.
fn digit_of(number: u8) -> u8
    requires { number < 16 }
    ensures { result ≡ digit number }
{
    if number < 10 {
        b'0' + number
    } else {
        b'A' + (number - 10)
    }
}

// Whether a byte is one of the digits 0-9 and A-F.
pub fn is_digit(byte: u8) -> bool
    ensures { result ≡ is_digit byte }
{
    matches!(byte, b'0'..=b'9' | b'A'..=b'F')
}

// What a digit stands for. No test of the byte: A is 65, so a letter has 9 to be added to its low half.
fn value_of(byte: u8) -> u64
    ensures small { result < 16 }
    ensures stands { is_digit byte ≡ true → digit result ≡ byte }
{
    let wide = byte as u64;
    (wide % 16 + wide / 64 * 9) % 16
}

// Fills `place` with the last digits of `figure`, as many as it holds, with zeros in front.
pub fn write_field(place: &mut [u8], figure: u64)
    ensures { place.new ≡ field (length place.old) figure }
{
    // Kept so: after a loop over `iter_mut().rev()` nothing is known of the slots, and to write them front to back and then
    // turn the place round took a third longer.
    let mut rest = figure;
    for at in (0..place.len()).rev() {
        place[at] = digit_of((rest % 16) as u8);
        rest /= 16;
    }
}

// The number that up to 16 digits write, for bytes that are known to be digits.
pub fn digits_value(bytes: &[u8]) -> u64
    ensures { length bytes.now ≤ 16 → Digits bytes.now → Number bytes.now result }
{
    let mut figure = 0u64;
    if bytes.len() <= 16 {
        for byte in bytes {
            figure = figure * 16 + value_of(*byte);
        }
    }
    figure
}

// The number that up to 16 digits write; none for more of them, or for other bytes.
pub fn read_field(bytes: &[u8]) -> Option<u64>
    ensures { Reads bytes.now result }
{
    if bytes.len() <= 16 && bytes.iter().all(|byte| is_digit(*byte)) {
        Some(digits_value(bytes))
    } else {
        None
    }
}
