// Worked cases of the definitions, proved.
ghost use Rattle.std.specs.Prelude.{◌≡◌, length};
ghost use Rattle.known.specs.Cases.{cases, AllHold};

// How many cases the table has; each of them holds.
pub fn worked_cases() -> usize
    ensures count { result ≡ length cases }
    ensures hold { AllHold cases }
{
    17
}
