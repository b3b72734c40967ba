// What a file carries, once it is read.
ghost use Rattle.std.specs.Prelude.{◌≡◌, ◌^◌, ◌<◌, ◌≤◌, true, ◌&&◌, length, pos, negsuc, int_le};

use archive::figures::Head;
use kinds::reading::Reading;

#[derive(Clone, Copy)]
pub struct Contents {
    pub head: Head,
    // how many multipliers there are
    pub count: usize,
    // places from the head's number of readings on, or from the count on, mean nothing
    // Kept so: lists of `Bounded` were tried and proved, and judging the longest file took about 1 % longer with them.
    pub readings: [Reading; 240],
    pub entries: [i64; 240],
    pub multipliers: [i64; 240],
    pub cost: u64,
    pub floor: i64,
    ghost few: { head.readings ≤ 240 },
    ghost fewer: { count ≤ 240 },
    ghost cost_fits: { cost < 2 ^ 64 },
    ghost floor_fits: { (int_le (negsuc 9223372036854775807) floor && int_le floor (pos 9223372036854775807)) ≡ true },
    ghost places: { (length readings ≡ 240) × (length entries ≡ 240) × (length multipliers ≡ 240) },
}

// The marks that a file must have, and the reach that says how many multipliers it has.
#[derive(Clone, Copy)]
pub struct Wanted {
    pub roughness: u16,
    pub misfit: u32,
    pub bend: u32,
    pub reach: usize,
}

impl Contents {
    ghost use Rattle.reader.specs.Readable.{figures_of};

    // Kept so: these are one line each, over three lists; the names are public.
    pub fn readings(&self) -> &[Reading]
        ensures { result.now ≡ (figures_of self.now).readings }
    {
        &self.readings[..self.head.readings as usize]
    }

    pub fn entries(&self) -> &[i64]
        ensures { result.now ≡ (figures_of self.now).entries }
    {
        &self.entries[..self.head.readings as usize]
    }

    pub fn multipliers(&self) -> &[i64]
        ensures { result.now ≡ (figures_of self.now).multipliers }
    {
        &self.multipliers[..self.count]
    }

    // No figures yet.
    pub(crate) fn none() -> Contents {
        let reading = Reading {
            minute: 0,
            crude: 0,
            weight: 0,
        };
        let head = Head {
            roughness: 0,
            misfit: 0,
            bend: 0,
            readings: 0,
            stiffness: 0,
            denominator: 0,
            allowance: 0,
        };
        Contents {
            head,
            count: 0,
            readings: [reading; 240],
            entries: [0; 240],
            multipliers: [0; 240],
            cost: 0,
            floor: 0,
        }
    }
}
