// The machine of the frame layer: the stage that is reached and the frame that comes decide whether it is in order.
ghost use Rattle.std.specs.Prelude.{◌≡◌, ◌≢◌, ◌+◌, ◌∷◌, ◌++◌, MatchResult};
ghost use Rattle.digits.specs.Fields.{Number};
ghost use Rattle.reader.specs.Faults.{found_by};
ghost use Rattle.reader.specs.Frames.{stage_at};
ghost use Rattle.reader.specs.Heads.{HeadRead, HeadChecked};
ghost use Rattle.reader.specs.Shapes.{frame_text};
ghost use Rattle.reader.specs.declared.frames.Frame.TheVariants.{Head as HeadFrame};
ghost use Rattle.reader.specs.declared.stage.Stage.TheVariants.{Head as AtHead, Reading as AtReading, Entry as AtEntry, Multiplier as AtMultiplier, End as AtEnd, Nothing as AtNothing};

use crate::contents::{Contents, Wanted};
use crate::fault::{Fault, Layer};
use crate::frames::{Frame, HeadFields};
use crate::stage::{Stage, awaited};
use crate::values::Digits;
use archive::figures::Head;
use kinds::reading::Reading;
use kinds::refusal::Cause;

// The figures of a head, from its fields.
impl From<HeadFields<'_>> for Head {
    ghost from_gives = { λ fields head. HeadRead fields head };

    fn from(fields: HeadFields<'_>) -> Head {
        Head {
            roughness: fields.roughness.figure(),
            misfit: fields.misfit.figure(),
            bend: fields.bend.figure(),
            readings: fields.readings.figure(),
            stiffness: fields.stiffness.figure(),
            denominator: fields.denominator.figure(),
            allowance: fields.allowance.figure(),
        }
    }
}

// Whether a head has the edition and the marks that are wanted and a number of readings that can be; how many
// multipliers there are then.
fn check_head(wanted: Option<Wanted>, edition: u64, head: Head, at: usize) -> Result<usize, Fault>
    ensures { HeadChecked wanted edition head at result }
{
    let Some(wanted) = wanted.filter(|wanted| {
        edition == 1
            && head.roughness == u64::from(wanted.roughness)
            && head.misfit == u64::from(wanted.misfit)
            && head.bend == u64::from(wanted.bend)
    }) else {
        return Err(Fault::found_by(Layer::Frames, Cause::Mark, at));
    };
    if head.readings > 240 {
        return Err(Fault::found_by(Layer::Frames, Cause::Full, at));
    }
    let readings = head.readings as usize;
    if readings <= wanted.reach {
        return Err(Fault::found_by(Layer::Frames, Cause::Short, at));
    }
    Ok(readings - wanted.reach)
}

// Whether a frame has the place that is waited for.
fn check_place(place: Digits<'_, 4>, k: usize, at: usize) -> Result<(), Fault>
    ensures { MatchResult result (λ _. Number place.entry.bytes.now k) (λ f. (f ≡ found_by Layer.Frames Cause.Frame at) × (Number place.entry.bytes.now k → ⊥)) }
{
    if place.figure() != k as u64 {
        return Err(Fault::disorder(at));
    }
    Ok(())
}

// Behind the head, what it waits for is what the head's counts and the lines taken since give.
#[derive(Clone, Copy)]
pub(crate) struct Machine {
    pub stage: Stage,
    // how many lines behind the head were taken
    pub taken: usize,
    pub contents: Contents,
    ghost waits: { stage ≢ AtHead → stage ≡ stage_at contents.head.readings contents.count taken },
}

impl Machine {
    ghost use Rattle.reader.specs.Steps.{HeadStepped, LineStepped, Stepped};

    // A machine that waits for the head.
    pub(crate) fn new() -> Machine
        ensures { result.stage ≡ AtHead }
    {
        Machine {
            stage: Stage::Head,
            taken: 0,
            contents: Contents::none(),
        }
    }

    // One line more is taken, behind the head.
    fn advance(&mut self)
        requires { (self.old.stage ≢ AtHead) × (self.old.stage ≢ AtNothing) }
        ensures taken { self.new.taken ≡ self.old.taken + 1 }
        ensures stage { self.new.stage ≡ stage_at self.old.contents.head.readings self.old.contents.count (self.old.taken + 1) }
        ensures contents { self.new.contents ≡ self.old.contents }
    {
        self.taken += 1;
        self.stage = awaited(&self.contents, self.taken);
    }

    // Kept so: `at`, like `wanted`, goes along with each frame, since a fault goes up by `?` from where it is found.
    fn keep_reading(
        &mut self,
        k: usize,
        place: Digits<'_, 4>,
        minute: Digits<'_, 8>,
        crude: Digits<'_, 4>,
        weight: Digits<'_, 4>,
        at: usize,
    ) -> Result<(), Fault>
        requires { self.old.stage ≡ AtReading k }
        ensures { LineStepped (48 ∷ 50 ∷ (place.entry.bytes.now ++ (minute.entry.bytes.now ++ (crude.entry.bytes.now ++ weight.entry.bytes.now)))) at self.old self.new result }
    {
        check_place(place, k, at)?;
        self.contents.readings[k] = Reading {
            minute: minute.unsigned(),
            crude: crude.unsigned(),
            weight: weight.unsigned(),
        };
        self.advance();
        Ok(())
    }

    // Kept so: the next goes to another list and is read in another way; both share `check_place` and `advance`.
    fn keep_entry(
        &mut self,
        k: usize,
        place: Digits<'_, 4>,
        value: Digits<'_, 4>,
        at: usize,
    ) -> Result<(), Fault>
        requires { self.old.stage ≡ AtEntry k }
        ensures { LineStepped (48 ∷ 51 ∷ (place.entry.bytes.now ++ value.entry.bytes.now)) at self.old self.new result }
    {
        check_place(place, k, at)?;
        self.contents.entries[k] = value.unsigned();
        self.advance();
        Ok(())
    }

    fn keep_multiplier(
        &mut self,
        k: usize,
        place: Digits<'_, 4>,
        value: Digits<'_, 8>,
        at: usize,
    ) -> Result<(), Fault>
        requires { self.old.stage ≡ AtMultiplier k }
        ensures { LineStepped (48 ∷ 52 ∷ (place.entry.bytes.now ++ value.entry.bytes.now)) at self.old self.new result }
    {
        check_place(place, k, at)?;
        self.contents.multipliers[k] = value.short_signed();
        self.advance();
        Ok(())
    }

    fn keep_end(
        &mut self,
        cost: Digits<'_, 16>,
        floor: Digits<'_, 16>,
        at: usize,
    ) -> Result<(), Fault>
        requires { self.old.stage ≡ AtEnd }
        ensures { LineStepped (70 ∷ 70 ∷ (cost.entry.bytes.now ++ floor.entry.bytes.now)) at self.old self.new result }
    {
        self.contents.cost = cost.figure();
        self.contents.floor = floor.long_signed();
        self.advance();
        Ok(())
    }

    // The head of a file, if it is one that is wanted.
    fn keep_head(
        &mut self,
        wanted: Option<Wanted>,
        fields: HeadFields<'_>,
        at: usize,
    ) -> Result<(), Fault>
        ensures { HeadStepped wanted (frame_text (HeadFrame fields.entry)) at self.new result }
    {
        let head = Head::from(fields);
        let count = check_head(wanted, fields.edition.figure(), head, at)?;
        self.contents.head = head;
        self.contents.count = count;
        self.taken = 0;
        self.stage = awaited(&self.contents, 0);
        Ok(())
    }

    // Takes the frame of line `at`, or refuses it.
    pub(crate) fn step(
        &mut self,
        wanted: Option<Wanted>,
        frame: Frame<'_>,
        at: usize,
    ) -> Result<(), Fault>
        ensures { Stepped wanted (frame_text frame.entry) at self.old self.new result }
    {
        // Kept so: stage and frame decide together, and each pair hands over its fields; closures are no plainer.
        match (self.stage, frame) {
            (Stage::Head, Frame::Head(fields)) => self.keep_head(wanted, fields, at),
            (
                Stage::Reading(k),
                Frame::Reading {
                    place,
                    minute,
                    crude,
                    weight,
                },
            ) => { self.keep_reading(k, place, minute, crude, weight, at) }
            (Stage::Entry(k), Frame::Entry { place, value }) => self.keep_entry(
                k, place, value, at,
            ),
            (Stage::Multiplier(k), Frame::Multiplier { place, value }) => {
                self.keep_multiplier(k, place, value, at)
            }
            (Stage::End, Frame::End { cost, floor }) => self.keep_end(cost, floor, at),
            _ => Err(Fault::disorder(at)),
        }
    }
}
