//! The seat of a page, which is empty until one is opened, and once it was closed.
ghost use Rattle.std.specs.Prelude.{◌≡◌, length, None};
ghost use Rattle.croquet_page.specs.Inputs.{input_of};
ghost use Rattle.croquet_page.specs.Seats.{LooksSeat, OpensSeat, TellsSeat, frame_at, laid_over, text_in};

use crate::copying::copy_out;
use crate::opening::{open_number, open_page, opened_parts};
use crate::page::Page;
use crate::told::{Told, closed_told};
use std::alloc::Global;
use tea_base::Blob;

/// A page, or none.
#[derive(Drop)]
pub struct Seat {
    pub page: Option<Page>,
    /// Why the last opening was refused, where its program was.
    pub line: Blob,
}

impl Seat {
    /// A seat without a page. Takes no memory.
    pub fn new(alloc: Global) -> Seat
        ensures { result.page ≡ None }
    {
        Seat {
            page: None,
            line: Blob::new(alloc),
        }
    }

    /// Opens a page in place of the one that was. 0: it is open. 2: the program is refused, and the line tells why. 3: the name is none.
    /// 4: the number of the view is 0. 8: memory was wanted.
    pub fn open_page(&mut self, alloc: Global, program: &[u8], name: &[u8], view: u32) -> u32
        ensures { OpensSeat program.now name.now view self.new result }
    {
        // What the page that was had in memory is there for the new one.
        self.page = None;
        let opened = open_page(alloc, program, name, view);
        let number = open_number(&opened);
        let (page, line) = opened_parts(alloc, opened);
        self.page = page;
        self.line = line;
        number
    }

    /// Tells the page what a host tells by a number, with bytes.
    pub fn tell(&mut self, kind: u32, bytes: &[u8]) -> Told
        ensures tells { TellsSeat (input_of kind bytes.now) self.old.page self.new.page result }
        ensures line { self.new.line ≡ self.old.line }
    {
        let Some(page) = &mut self.page else {
            return closed_told();
        };
        let answer = page.tell(kind, bytes);
        page.told(answer)
    }

    /// Asks the page for its world.
    pub fn look(&mut self) -> Told
        ensures looks { LooksSeat self.old.page self.new.page result }
        ensures line { self.new.line ≡ self.old.line }
    {
        let Some(page) = &mut self.page else {
            return closed_told();
        };
        let answer = page.look();
        page.told(answer)
    }

    /// Copies out a frame that the last call told, and gives its length: 0 where there is none at this place.
    pub fn frame(&self, index: u32, room: &mut [u8]) -> u64
        ensures count { result ≡ length (frame_at index self.now.page) }
        ensures copied { room.new ≡ laid_over (frame_at index self.now.page) room.old }
    {
        let Some(page) = &self.page else {
            return copy_out(b"", room);
        };
        match page.last.frames.get(index as usize) {
            Some(frame) => copy_out(frame.bytes(), room),
            None => copy_out(b"", room),
        }
    }

    /// Copies out the text that the last call told, and gives its length. Of an empty seat it is the line of a program that was refused.
    pub fn text(&self, room: &mut [u8]) -> u64
        ensures count { result ≡ length (text_in self.now.line self.now.page) }
        ensures copied { room.new ≡ laid_over (text_in self.now.line self.now.page) room.old }
    {
        match &self.page {
            Some(page) => copy_out(page.last.text.as_bytes(), room),
            None => copy_out(self.line.bytes(), room),
        }
    }

    /// Empties the seat.
    pub fn close(&mut self)
        ensures page { self.new.page ≡ None }
        ensures line { self.new.line ≡ self.old.line }
    {
        let _page = self.page.take();
    }
}
