//! Links of a case.
ghost use Rattle.std.specs.Prelude.{IfOk};
ghost use Rattle.tea_io.specs.MemNet.{HasNoCounts};

use crate::words::add_numbers;
use case_lines::CaseFault;
use net_shares::{MemSharedNet, SharePlans};
use std::alloc::Global;
use tea_base::{Blob, Numbers};
use tea_io::{Blobs, MemLink, MemLinks};

/// What the next word of a link is.
#[derive(Clone, Copy)]
enum Word {
    /// A frame, or the word before numbers.
    Any,
    /// The number of a call that fails.
    Failing,
    /// The numbers of receives that are quiet.
    Quiet,
}

/// A link that is being read.
#[derive(Drop)]
struct LinkReading {
    alloc: Global,
    frames: Blobs,
    failing: Numbers,
    quiet: Numbers,
    next: Word,
}

impl LinkReading {
    fn take(&mut self, word: &str) -> Result<(), CaseFault> {
        match self.next {
            Word::Any => self.take_any(word),
            Word::Failing => {
                self.next = Word::Any;
                add_numbers(&mut self.failing, word)
            }
            Word::Quiet => {
                self.next = Word::Any;
                add_numbers(&mut self.quiet, word)
            }
        }
    }

    fn take_any(&mut self, word: &str) -> Result<(), CaseFault> {
        match word {
            "fail" => self.next = Word::Failing,
            "quiet" => self.next = Word::Quiet,
            _ => {
                let frame = Blob::from_vec(hex::decode(self.alloc, word)?);
                self.frames.push(frame)?;
            }
        }
        Ok(())
    }
}

fn read_link(alloc: Global, part: &str) -> Result<MemLink, CaseFault>
    ensures { IfOk result HasNoCounts }
{
    let mut reading = LinkReading {
        alloc,
        frames: Blobs::new(alloc),
        failing: Numbers::new(alloc),
        quiet: Numbers::new(alloc),
        next: Word::Any,
    };
    for word in part.split(' ') {
        reading.take(word)?;
    }
    let LinkReading {
        frames,
        failing,
        quiet,
        next,
        ..
    } = reading;
    // Behind `fail` and `quiet` stand numbers.
    if !matches!(next, Word::Any) {
        return Err(CaseFault::NoCase);
    }
    Ok(MemLink::new(alloc, frames, failing, quiet))
}

/// A net that gives the links of these parts, and no share, and of which one call fails.
pub(crate) fn net_of(
    alloc: Global,
    parts: &[&str],
    failing: u32,
) -> Result<MemSharedNet, CaseFault> {
    let mut links = MemLinks::new(alloc);
    for part in parts {
        links.push(read_link(alloc, part)?)?;
    }
    let failing = Numbers::from_vec(vec![in alloc; failing]?);
    Ok(MemSharedNet::new(alloc, links, SharePlans::new(alloc), failing))
}
