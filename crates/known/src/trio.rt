// The kinds of a firing that the programs know.
use crate::penalty::KnownPenalty;
use crate::roughness_kind::KnownRoughness;
use objective::trio::Kinds;

pub type KnownKinds = Kinds<KnownRoughness, KnownPenalty, KnownPenalty>;
