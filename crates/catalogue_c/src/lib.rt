// The judge for callers in C: a static library with one call, which `c/sablecobalt.h` declares.
#![tactic(auto)]

ghost use Rattle.catalogue.specs.Told.{Tells};

use catalogue::c::judge_packed;
use catalogue::marks::Marks;

// What the judge answers about a file under three marks, in one number.
#[unsafe(no_mangle)]
pub extern "C" fn sablecobalt_judge(roughness: u32, misfit: u32, bend: u32, file: &[u8]) -> u32
    ensures { Tells (record { roughness = roughness; misfit = misfit; bend = bend }) file.now result }
{
    let marks = Marks {
        roughness: roughness.into(),
        misfit: misfit.into(),
        bend: bend.into(),
    };
    judge_packed(marks, file)
}
