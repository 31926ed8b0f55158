//! The calls of files, of the output, of a net and of a link, and how each came out.
ghost use Rattle.run_steps.specs.Outside.{LooksAt, MakesLink, PrintsText, PutsFile, ReadsFile, SendsFrame, files_tell, links_tell, net_tells, output_tells};
ghost use Rattle.run_steps.specs.Calls.{came_of, given_of, made_of};

use tea_base::{Blob, Text};
use tea_io::{FileFault, Files, Link, LinkFault, Net, NetFault, Sink, SinkFault};

/// Why a call came to nothing.
#[derive(Clone, Copy, Debug, PartialEq, Eq)]
pub enum CallFault {
    /// It failed, and this was counted.
    Failed,
    WantOfMemory,
}

/// Reads a file: its bytes, or none where it has more than `limit`.
pub fn read_file<F: Files>(
    files: &mut F,
    name: &Text,
    limit: u64,
) -> Result<Option<Blob>, CallFault>
    ensures { ReadsFile (files_tell F.Files) (came_of result) (record { name = name.now; limit = limit })
        (given_of result) files.old files.new }
{
    match files.read(name, limit) {
        Ok(bytes) => Ok(Some(bytes)),
        Err(FileFault::Failed) => Err(CallFault::Failed),
        Err(FileFault::TooLarge { len: _ }) => Ok(None),
        Err(FileFault::WantOfMemory) => Err(CallFault::WantOfMemory),
    }
}

/// Puts bytes under a name.
pub fn put_file<F: Files>(files: &mut F, name: &Text, bytes: &[u8]) -> Result<(), CallFault>
    ensures { PutsFile (files_tell F.Files) (came_of result) name.now bytes.now files.old files.new }
{
    match files.write(name, bytes) {
        Ok(()) => Ok(()),
        Err(FileFault::Failed) => Err(CallFault::Failed),
        // A write has no limit.
        Err(FileFault::TooLarge { len: _ }) => unreachable!(),
        Err(FileFault::WantOfMemory) => Err(CallFault::WantOfMemory),
    }
}

/// Looks whether bytes can be put under a name.
pub fn look_at<F: Files>(files: &mut F, name: &Text) -> Result<(), CallFault>
    ensures { LooksAt (files_tell F.Files) (came_of result) name.now files.old files.new }
{
    match files.look(name) {
        Ok(()) => Ok(()),
        Err(FileFault::Failed) => Err(CallFault::Failed),
        // A look has no limit.
        Err(FileFault::TooLarge { len: _ }) => unreachable!(),
        Err(FileFault::WantOfMemory) => Err(CallFault::WantOfMemory),
    }
}

/// Prints a text.
pub fn print_text<W: Sink>(out: &mut W, text: &[u8]) -> Result<(), CallFault>
    ensures { PrintsText (output_tells W.Sink) (came_of result) text.now out.old out.new }
{
    match out.write(text) {
        Ok(()) => Ok(()),
        Err(SinkFault::Failed) => Err(CallFault::Failed),
        Err(SinkFault::WantOfMemory) => Err(CallFault::WantOfMemory),
    }
}

/// Makes a link to an address.
pub fn connect<N: Net>(net: &mut N, address: &Text) -> Result<N::Conn, CallFault>
    ensures { MakesLink
        (net_tells N.Net) (links_tell N.Conn.Link) (came_of result) address.now net.old net.new (made_of result) }
{
    match net.connect(address) {
        Ok(link) => Ok(link),
        Err(NetFault::Failed) => Err(CallFault::Failed),
        Err(NetFault::WantOfMemory) => Err(CallFault::WantOfMemory),
    }
}

/// Sends a frame.
pub fn send_frame<L: Link>(link: &mut L, frame: &[u8]) -> Result<(), CallFault>
    ensures { SendsFrame (links_tell L.Link) (came_of result) frame.now link.old link.new }
{
    match link.send(frame) {
        Ok(()) => Ok(()),
        Err(LinkFault::Failed) => Err(CallFault::Failed),
        Err(LinkFault::WantOfMemory) => Err(CallFault::WantOfMemory),
    }
}
