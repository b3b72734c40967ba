// The trait of the kinds of penalty.
ghost use Rattle.std.specs.Prelude.{◌≡◌, min};
ghost use Rattle.kinds.specs.Penalty.{PenaltyMeaning, PenaltyLaws, cost_answer, allows_answer, touch_answer};

// A kind of penalty: what a residual costs, and which slopes stay below that cost.
// Kept so: any weight and denominator can be asked of, so they are figures and no type with a range.
pub trait Penalty {
    ghost meaning: { Self → PenaltyMeaning };

    // the most that one unit of weight and residual costs; 101 if above 100
    fn steepness(&self) -> u32
        ensures { result ≡ min (meaning self.now).steepness 101 };

    fn mark(&self) -> u32
        ensures { result ≡ (meaning self.now).mark };

    // what a residual costs at a weight
    fn cost(&self, weight: i64, residual: i64) -> Option<u64>
        ensures { result ≡ cost_answer (meaning self.now) weight residual };

    // whether a slope is allowed at a weight and a denominator
    fn allows(&self, weight: i64, denominator: i64, slope: i64) -> Option<bool>
        ensures { result ≡ allows_answer (meaning self.now) weight denominator slope };

    // an allowed slope that reaches the cost at this residual
    fn touching_slope(&self, weight: i64, denominator: i64, residual: i64) -> Option<i64>
        ensures { result ≡ touch_answer (meaning self.now) weight denominator residual };

    ghost kept: { (k : Self) → PenaltyLaws (meaning k) };
}
