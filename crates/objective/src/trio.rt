// The three kinds of a firing.
ghost use Rattle.objective.specs.Objective.{KindsMeaning, three};

use kinds::penalty::Penalty;
use kinds::roughness::Roughness;

// A roughness, the penalty of the misfit and the penalty of the bends.
#[derive(Clone, Copy)]
pub struct Kinds<R, M, B> {
    pub roughness: R,
    pub misfit: M,
    pub bend: B,
}

// What three kinds mean together.
pub trait Meant {
    ghost meaning: { Self → KindsMeaning };
}

impl<R: Roughness, M: Penalty, B: Penalty> Meant for Kinds<R, M, B> {
    ghost meaning = { λ k. three (R.meaning k.roughness) (M.meaning k.misfit) (B.meaning k.bend) };
}
