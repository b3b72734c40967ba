// The fields of a line, and the numbers that they write.
ghost use Rattle.std.specs.Prelude.{◌≡◌, ◌≤◌, ◌++◌, true, length, pos, int_le, unsigned_abs};
ghost use Rattle.std.specs.Int.{w32, w64};
ghost use Rattle.std.proofs.Common.{of_z};
ghost use Rattle.std.proofs.Props.{props};
ghost use Rattle.archive.specs.File.{fits_signed};
ghost use Rattle.digits.specs.Fields.{Digits as AreDigits, Number};

use digits::digits_value;

// A field of a line, of a known number of digits.
#[derive(Clone, Copy)]
pub(crate) struct Digits<'a, const WIDTH: usize> {
    bytes: &'a [u8],
    ghost short: { WIDTH ≤ 16 },
    ghost sized: { length bytes.now ≡ WIDTH },
    ghost digits: { AreDigits bytes.now } by { Prim.hlevel props },
}

impl<'a, const WIDTH: usize> Digits<'a, WIDTH> {
    // The number that the digits write.
    pub(crate) fn figure(self) -> u64
        ensures { Number self.entry.bytes.now result }
    {
        digits_value(self.bytes)
    }

    // The same of at most 8 digits, as a number that has a sign.
    pub(crate) fn unsigned(self) -> i64
        requires { WIDTH ≤ 8 }
        ensures value { Number self.entry.bytes.now (unsigned_abs result) }
        ensures sign { int_le (pos 0) result ≡ true }
    {
        self.figure() as i64
    }
}

impl<'a> Digits<'a, 8> {
    // The number that the digits write in two's complement.
    pub(crate) fn short_signed(self) -> i64
        ensures value { Number self.entry.bytes.now (of_z w32 result) }
        ensures fits { fits_signed result ≡ true }
    {
        (self.figure() as u32).cast_signed() as i64
    }
}

impl<'a> Digits<'a, 16> {
    // The number that the digits write in two's complement.
    pub(crate) fn long_signed(self) -> i64
        ensures { Number self.entry.bytes.now (of_z w64 result) }
    {
        self.figure().cast_signed()
    }
}

// The digits of a line that no field has taken yet.
#[derive(Drop)]
pub(crate) struct Rest<'a> {
    pub bytes: &'a [u8],
    ghost digits: { AreDigits bytes.now } by { Prim.hlevel props },
}

impl<'a> Rest<'a> {
    // Takes the next field. Where its value goes says how many digits it has.
    pub(crate) fn field<const WIDTH: usize>(&mut self) -> Digits<'a, WIDTH>
        requires short { WIDTH ≤ 16 }
        requires long { WIDTH ≤ length self.old.bytes.now }
        ensures { self.old.bytes.now ≡ result.bytes.now ++ self.new.bytes.now }
    {
        let (bytes, rest) = self.bytes.split_at(WIDTH);
        self.bytes = rest;
        Digits { bytes }
    }
}
