// How much each three values in a row bend over their minutes, and the transpose, written at the start of a place.
ghost use Rattle.std.specs.Prelude.{◌≡◌, ◌+◌, ◌<◌, ◌≤◌, true, length, ◌+ℤ◌, ◌-ℤ◌, ◌*ℤ◌, unsigned_abs, pos, slice_index_or};
ghost use Rattle.kinds.specs.Figures.{largest, over};
ghost use Rattle.kinds.specs.Minutes.{may_follow, lawful};
ghost use Rattle.roughness.specs.Maps.{bend, shares, bends, bends_back};
ghost use Rattle.roughness.specs.Bending.{step_at, step_after};

// The steps between three minutes in a row, each at most 60.
#[derive(Clone, Copy)]
struct Steps {
    before: i64,
    after: i64,
    ghost short: { (unsigned_abs before ≤ 60) × (unsigned_abs after ≤ 60) },
}

impl Steps {
    fn between(minutes: &[i64; 3]) -> Steps
        requires { (may_follow (slice_index_or minutes.now 0 (pos 0)) (slice_index_or minutes.now 1 (pos 0)) ≡ true) × (may_follow (slice_index_or minutes.now 1 (pos 0)) (slice_index_or minutes.now 2 (pos 0)) ≡ true) }
        ensures { (result.before ≡ step_at minutes.now 0) × (result.after ≡ step_after minutes.now 0) }
    {
        let [first, second, third] = *minutes;
        Steps {
            before: second - first,
            after: third - second,
        }
    }

    // How much three values bend over the steps.
    fn bend(self, values: &[i64; 3]) -> i64
        requires { largest values.now ≤ 1000000000000 }
        ensures { result ≡ bend self.before self.after (slice_index_or values.now 0 (pos 0)) (slice_index_or values.now 1 (pos 0)) (slice_index_or values.now 2 (pos 0)) }
    {
        let [first, second, third] = *values;
        self.after * first - (self.before + self.after) * second + self.before * third
    }

    // What a multiplier puts into three columns, the middle one to be taken from its column.
    fn shares(self, multiplier: i64) -> [i64; 3]
        requires { unsigned_abs multiplier ≤ 1000000000000 }
        ensures value { result ≡ shares self.before self.after multiplier }
        ensures small { largest result ≤ 120000000000000 }
    {
        [
            self.after * multiplier,
            (self.before + self.after) * multiplier,
            self.before * multiplier,
        ]
    }
}

// How much each three values in a row bend.
pub(crate) fn write_bends(minutes: &[i64], values: &[i64], rows: &mut [i64])
    requires { (lawful minutes.now ≡ true) × ((length values.now ≡ length minutes.now) × ((largest values.now ≤ 1000000000000) × ((2 < length minutes.now) × (length minutes.now ≤ length rows.old + 2)))) }
    ensures { rows.new ≡ over (bends minutes.now values.now) rows.old }
{
    let mut windows = minutes
        .array_windows::<3>()
        .zip(values.array_windows::<3>());
    for row in rows.iter_mut() {
        let Some((moments, figures)) = windows.next() else {
            return;
        };
        let steps = Steps::between(moments);
        *row = steps.bend(figures);
    }
}

// The transpose: a multiplier has a share in three columns. `here` and `next` are what those before have put into the
// column at hand and into the one after it.
pub(crate) fn write_bends_back(minutes: &[i64], multipliers: &[i64], columns: &mut [i64])
    requires { (lawful minutes.now ≡ true) × ((length multipliers.now + 2 ≡ length minutes.now) × ((largest multipliers.now ≤ 1000000000000) × (length minutes.now ≤ length columns.old))) }
    ensures { columns.new ≡ over (bends_back minutes.now multipliers.now) columns.old }
{
    let mut here = 0;
    let mut next = 0;
    let mut windows = minutes.array_windows::<3>().zip(multipliers);
    for column in columns[..multipliers.len()].iter_mut() {
        // Each multiplier has its three minutes, so this is never none.
        let Some((moments, multiplier)) = windows.next() else {
            return;
        };
        let [first, second, third] = Steps::between(moments).shares(*multiplier);
        *column = here + first;
        here = next - second;
        next = third;
    }
    columns[multipliers.len()] = here;
    columns[multipliers.len() + 1] = next;
}
