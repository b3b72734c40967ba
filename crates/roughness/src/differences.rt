// Differences of a list of figures, and their transpose, written at the start of a place.
ghost use Rattle.std.specs.Prelude.{◌≡◌, ◌+◌, ◌<◌, ◌≤◌, length};
ghost use Rattle.kinds.specs.Figures.{largest, over};
ghost use Rattle.roughness.specs.Maps.{differences, differences_back};

// Each value after the first, minus the one before it.
// Kept so: here and in bends.rt figures are at most 10^12; a type of them would be made and opened at each call.
pub(crate) fn write_differences(values: &[i64], rows: &mut [i64])
    requires { (largest values.now ≤ 1000000000000) × ((1 ≤ length values.now) × (length values.now ≤ length rows.old + 1)) }
    ensures { rows.new ≡ over (differences values.now) rows.old }
{
    let mut windows = values.array_windows::<2>();
    for row in rows.iter_mut() {
        let Some(&[value, next]) = windows.next() else {
            return;
        };
        *row = next - value;
    }
}

// The transpose: each multiplier before minus the present one, with 0 before the first and after the last.
pub(crate) fn write_differences_back(multipliers: &[i64], columns: &mut [i64])
    requires { (largest multipliers.now ≤ 1000000000000) × (length multipliers.now < length columns.old) }
    ensures { columns.new ≡ over (differences_back multipliers.now) columns.old }
{
    let mut before = 0;
    let mut rest = multipliers.iter();
    for column in columns.iter_mut() {
        let Some(&multiplier) = rest.next() else {
            *column = before;
            return;
        };
        *column = before - multiplier;
        before = multiplier;
    }
}
