// The stages through which a file is written, as types.
ghost use Rattle.std.specs.Prelude.{◌≡◌, ◌+◌, ◌^◌, ◌<◌};
ghost use Rattle.archive.specs.Writing.{opened, moved_on, past_list, in_turn, has_room, Passes, ListStep};

use kinds::refusal::Cause;

// How far a file has come: the bytes written, the counts in its head, and the place of the next frame.
#[derive(Clone, Copy)]
pub struct Progress {
    pub(crate) at: usize,
    pub(crate) readings: usize,
    pub(crate) multipliers: usize,
    pub(crate) next: usize,
}

impl Progress {
    // Behind one more frame, which stops at `at`.
    pub(crate) fn past_frame(self, at: usize) -> Progress
        requires { self.next + 1 < 2 ^ 64 }
        ensures { result ≡ moved_on self at (self.next + 1) }
    {
        let next = self.next + 1;
        Progress { at, next, ..self }
    }

    // At the first frame of the next list.
    fn past_list(self) -> Progress
        ensures { result ≡ past_list self }
    {
        Progress { next: 0, ..self }
    }
}

// Keeps other modules from making stages of their own.
mod sealed {
    pub trait Sealed {}
}

// What a stage says of a file that is at it: whether the file may be let go.
pub trait Stage: sealed::Sealed {
    ghost may_be_let_go: { Type 0 };
}

// Nothing is written yet.
#[derive(Clone, Copy)]
pub struct Opened;

impl sealed::Sealed for Opened {}

impl Stage for Opened {
    ghost may_be_let_go = { ⊥ };
}

// The head is written, and some of the readings.
#[derive(Clone, Copy)]
pub struct AtReadings;

impl sealed::Sealed for AtReadings {}

impl Stage for AtReadings {
    ghost may_be_let_go = { ⊥ };
}

#[derive(Clone, Copy)]
pub struct AtEntries;

impl sealed::Sealed for AtEntries {}

impl Stage for AtEntries {
    ghost may_be_let_go = { ⊥ };
}

#[derive(Clone, Copy)]
pub struct AtMultipliers;

impl sealed::Sealed for AtMultipliers {}

impl Stage for AtMultipliers {
    ghost may_be_let_go = { ⊥ };
}

// The file is ended or scratched. No other module can lead a file here, or to any stage at which it may be let go.
#[derive(Clone, Copy)]
struct Closed;

impl sealed::Sealed for Closed {}

impl Stage for Closed {
    ghost may_be_let_go = { Unit {0} };
}

// A file that has no end yet. It cannot be let go before it is closed: it is led on, ended or scratched.
pub struct Unfinished<S: Stage> {
    pub(crate) progress: Progress,
    stage: S,
}

impl<S: Drop + Stage> Drop for Unfinished<S> {
    fn drop(self)
        requires { S.may_be_let_go }
    {
        let Unfinished {
            progress: _,
            stage: _,
        } = self;
    }
}

// A file that stands whole in its place.
#[derive(Clone, Copy)]
pub struct Ended {
    pub(crate) bytes: usize,
}

impl Ended {
    // How long the file is.
    pub fn bytes(self) -> usize
        ensures { result ≡ self.bytes }
    {
        self.bytes
    }
}

// A stage handed back as it was, and why.
pub struct Refused<S> {
    pub stage: S,
    pub cause: Cause,
}

impl Unfinished<Opened> {
    pub fn new() -> Unfinished<Opened>
        ensures { result.progress ≡ opened }
    {
        Unfinished {
            progress: Progress {
                at: 0,
                readings: 0,
                multipliers: 0,
                next: 0,
            },
            stage: Opened,
        }
    }
}

impl<S: Drop + Stage> Unfinished<S> {
    // Gives the file up: the answer is how many bytes are written, and they stay.
    pub fn scratch(self) -> usize
        ensures { result ≡ self.progress.at }
    {
        let progress = self.progress;
        let _closed = self.led_to(Closed);
        progress.at
    }

    // The same file at another stage.
    pub(crate) fn led_to<T: Stage>(self, stage: T) -> Unfinished<T>
        ensures { result.progress ≡ self.progress }
    {
        let Unfinished { progress, stage: _ } = self;
        Unfinished { progress, stage }
    }

    // The same file, come as far as is said.
    pub(crate) fn with_progress(self, progress: Progress) -> Unfinished<S>
        ensures { result.progress ≡ progress }
    {
        let Unfinished { progress: _, stage } = self;
        Unfinished { progress, stage }
    }

    // The same file, if the counts, then the figures, then the room are right: `width` bytes have to fit in a place of
    // `room` bytes, behind those that are written.
    // Kept so: two tests that the calls make and no values, and their order is said here once for all of them.
    pub(crate) fn checked(
        self,
        counted: bool,
        fitting: bool,
        width: usize,
        room: usize,
    ) -> Result<Unfinished<S>, Refused<Unfinished<S>>>
        ensures { Passes (in_turn counted fitting (has_room self.progress width room)) self result }
    {
        let at = self.progress.at;
        let cause = if !counted {
            Cause::Frame
        } else if !fitting {
            Cause::Value
        } else if room < at || room - at < width {
            Cause::Room
        } else {
            return Ok(self);
        };
        Err(Refused { stage: self, cause })
    }

    // At the first frame of the next list, if as many frames are written as there are readings.
    pub(crate) fn past_readings(self) -> Result<Unfinished<S>, Refused<Unfinished<S>>>
        ensures { ListStep self result }
    {
        let progress = self.progress;
        if progress.next != progress.readings {
            return Err(Refused {
                stage: self,
                cause: Cause::Frame,
            });
        }
        Ok(self.with_progress(progress.past_list()))
    }

    pub(crate) fn ended(self, bytes: usize) -> Ended
        ensures { result.bytes ≡ bytes }
    {
        let _closed = self.led_to(Closed);
        Ended { bytes }
    }
}
