// The calls that write a file, frame by frame. Each takes its stage and is lent the file's place. It gives the next stage,
// or hands its own back and leaves the place as it was.
ghost use Rattle.std.specs.Prelude.{length};
ghost use Rattle.archive.specs.Writing.{HeadStep, FrameStep, ReadingStep, EntryStep, MultiplierStep, EndStep, ListStep, Ready, Lists};

use crate::figures::Head;
use crate::lists::ListStage;
use crate::put::{END_WIDTH, HEAD_WIDTH, put_end, put_head};
use crate::stages::{
    AtEntries, AtMultipliers, AtReadings, Ended, Opened, Progress, Refused, Unfinished,
};
use kinds::reading::Reading;

impl Unfinished<Opened> {
    // Writes the head of a file that will have so many multipliers.
    pub fn head(
        self,
        place: &mut [u8],
        head: Head,
        multipliers: usize,
    ) -> Result<Unfinished<AtReadings>, Refused<Unfinished<Opened>>>
        ensures { HeadStep head multipliers self place.old place.new result }
    {
        let file = self.checked(true, head.fits(), HEAD_WIDTH, place.len())?;
        let at = file.progress.at;
        let end = at + HEAD_WIDTH;
        put_head(&mut place[at..end], head);
        let progress = Progress {
            at: end,
            readings: head.readings as usize,
            multipliers,
            next: 0,
        };
        Ok(file.with_progress(progress).led_to(AtReadings))
    }
}

impl<S: ListStage> Unfinished<S> {
    // Writes one more frame of the stage's list.
    fn frame(
        self,
        place: &mut [u8],
        figure: S::Figure,
    ) -> Result<Unfinished<S>, Refused<Unfinished<S>>>
        ensures { FrameStep S.text S.test S.WIDTH (S.count self.progress) figure self place.old place.new result }
    {
        let progress = self.progress;
        let counted = progress.next < S::count(progress);
        let fitting = u16::try_from(progress.next).is_ok() && S::fits(figure);
        let file = self.checked(counted, fitting, S::WIDTH, place.len())?;
        let end = progress.at + S::WIDTH;
        S::put(&mut place[progress.at..end], progress, figure);
        Ok(file.with_progress(progress.past_frame(end)))
    }

    // Writes all frames of a list, when none of them will be refused.
    pub(crate) fn frames(self, place: &mut [u8], figures: &[S::Figure]) -> Unfinished<S>
        requires { Ready S.test S.WIDTH figures.now self.progress (S.count self.progress) (length place.old) }
        ensures { Lists S.text S.WIDTH figures.now (length figures.now) self.progress result.progress place.old place.new }
    {
        let mut file = self;
        for figure in figures {
            file = file.frame(place, *figure).unwrap();
        }
        file
    }
}

// Kept so: a method for each list, over the one above, so that a frame of another list does not compile.
impl Unfinished<AtReadings> {
    pub fn reading(
        self,
        place: &mut [u8],
        reading: Reading,
    ) -> Result<Unfinished<AtReadings>, Refused<Unfinished<AtReadings>>>
        ensures { ReadingStep reading self place.old place.new result }
    {
        self.frame(place, reading)
    }

    // Leads on to the entries, once all readings are written.
    pub fn begin_entries(self) -> Result<Unfinished<AtEntries>, Refused<Unfinished<AtReadings>>>
        ensures { ListStep self result }
    {
        Ok(self.past_readings()?.led_to(AtEntries))
    }
}

impl Unfinished<AtEntries> {
    pub fn entry(
        self,
        place: &mut [u8],
        value: i64,
    ) -> Result<Unfinished<AtEntries>, Refused<Unfinished<AtEntries>>>
        ensures { EntryStep value self place.old place.new result }
    {
        self.frame(place, value)
    }

    // Leads on to the multipliers, once there are as many entries as readings.
    pub fn begin_multipliers(
        self,
    ) -> Result<Unfinished<AtMultipliers>, Refused<Unfinished<AtEntries>>>
        ensures { ListStep self result }
    {
        Ok(self.past_readings()?.led_to(AtMultipliers))
    }
}

impl Unfinished<AtMultipliers> {
    pub fn multiplier(
        self,
        place: &mut [u8],
        value: i64,
    ) -> Result<Unfinished<AtMultipliers>, Refused<Unfinished<AtMultipliers>>>
        ensures { MultiplierStep value self place.old place.new result }
    {
        self.frame(place, value)
    }

    // Writes the end of the file, once all multipliers are written.
    pub fn end(
        self,
        place: &mut [u8],
        cost: u64,
        floor: i64,
    ) -> Result<Ended, Refused<Unfinished<AtMultipliers>>>
        ensures { EndStep cost floor self place.old place.new result }
    {
        let counted = self.progress.next == self.progress.multipliers;
        let file = self.checked(counted, true, END_WIDTH, place.len())?;
        let at = file.progress.at;
        let end = at + END_WIDTH;
        put_end(&mut place[at..end], cost, floor);
        Ok(file.ended(end))
    }
}
