//! A page: a live view, and what its last call told.
ghost use Rattle.std.specs.Prelude.{◌≡◌, Some};
ghost use Rattle.croquet_page.specs.Inputs.{input_of as told_by_number};
ghost use Rattle.croquet_page.specs.Pages.{IsSilent, LooksPage, TellsPage, told_of, wanted_by};

use crate::inputs::input_of;
use crate::living::Living;
use crate::told::{Answer, Told, answer_number, bit, end_number, refusal, want_number};
use live_view::{LiveInput, LiveOutcome, LiveWant};
use std::alloc::Global;
use tea_base::{Blob, List, WantOfMemory};

/// A live view, and what its last call told.
#[derive(Drop)]
pub struct Page {
    pub alloc: Global,
    pub view: Living,
    /// What is left to be copied out.
    pub last: LiveOutcome,
}

/// Nothing was told. Takes no memory.
pub fn nothing(alloc: Global) -> LiveOutcome
    ensures { IsSilent result }
{
    LiveOutcome {
        frames: List::new(alloc),
        text: String::new(alloc),
        here: false,
    }
}

impl Page {
    /// The answer to one thing that the view is told.
    fn answer(&mut self, input: &LiveInput) -> Answer
        requires silent { IsSilent self.old.last }
        ensures { TellsPage result (Some input.now) self.old.view self.new }
    {
        match self.view.step(input) {
            Ok(outcome) => {
                self.last = outcome;
                Answer::Done
            }
            Err(WantOfMemory) => Answer::WantOfMemory,
        }
    }

    /// The answer to what a host tells by a number, with bytes that were copied.
    fn take(&mut self, kind: u32, bytes: Blob) -> Answer
        requires silent { IsSilent self.old.last }
        ensures { TellsPage result (told_by_number kind bytes) self.old.view self.new }
    {
        match input_of(kind, bytes) {
            Some(input) => self.answer(&input),
            None => Answer::NoKind,
        }
    }

    /// Tells the view what a host tells by a number, with bytes. A number of nothing that is told does nothing. Once memory was wanted
    /// each call answers so, until a link is there.
    pub fn tell(&mut self, kind: u32, bytes: &[u8]) -> Answer
        ensures { TellsPage result (told_by_number kind bytes.now) self.old.view self.new }
    {
        self.last = nothing(self.alloc);
        match Blob::copy(self.alloc, bytes) {
            Ok(bytes) => self.take(kind, bytes),
            Err(WantOfMemory) => {
                self.view.forget();
                Answer::WantOfMemory
            }
        }
    }

    /// Tells the world in full. Once memory was wanted each call answers so, until a link is there.
    pub fn look(&mut self) -> Answer
        ensures { LooksPage result self.old.view self.new }
    {
        self.last = nothing(self.alloc);
        match self.view.look() {
            Ok(text) => {
                self.last.text = text;
                Answer::Done
            }
            Err(WantOfMemory) => Answer::WantOfMemory,
        }
    }

    /// What the page wants next.
    fn wanted(&self) -> LiveWant
        ensures { result ≡ wanted_by self.now }
    {
        self.view.wanted()
    }

    /// What a call tells in numbers that the page answered so.
    pub fn told(&self, answer: Answer) -> Told
        ensures { result ≡ told_of answer self.now }
    {
        let want = self.wanted();
        let (code, kept) = refusal(want);
        Told {
            time: self.view.time(),
            text: self.last.text.len() as u64,
            frames: self.last.frames.len() as u64,
            unacknowledged: self.view.unacknowledged() as u64,
            kept,
            seen: self.view.seen(),
            status: answer_number(answer),
            want: want_number(want),
            end: end_number(want),
            code,
            here: bit(self.last.here),
        }
    }
}
