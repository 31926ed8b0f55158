//! Frames of a reflector.
use crate::fault::FrameCaseFault;
use std::alloc::{AllocError, Global};
use tea_base::{Blob, Entry, What};
use wire_frames::{Base, ServerFrame, again_server, read_server, write_server};

/// A frame, in words, and its bytes when it is written, read and written again.
pub(crate) fn server_outcome(
    alloc: Global,
    bytes: &[u8],
) -> Result<(String, Blob), FrameCaseFault> {
    let frame = read_server(alloc, bytes)?;
    let again = write_server(alloc, &again_server(alloc, &frame)?)?;
    Ok((told_frame(alloc, &frame.clone()?)?, again))
}

fn told_frame(alloc: Global, frame: &ServerFrame) -> Result<String, AllocError> {
    match frame {
        ServerFrame::Sync {
            joined,
            last,
            from,
            base,
        } => {
            let base = told_base(alloc, base)?;
            format!(in alloc;
                "sync joined {joined} last {last} from {from}{}",
                base.as_str()
            )
        }
        ServerFrame::Recv(entry) => told_entry(alloc, entry),
        ServerFrame::Tick(time) => format!(in alloc; "tick {time}"),
        ServerFrame::Done { number, seq, time } => {
            format!(in alloc; "done {number} seq {seq} time {time}")
        }
        ServerFrame::Snapped { time } => format!(in alloc; "snapped {time}"),
        ServerFrame::Refused {
            about,
            code,
            kept,
            more,
        } => format!(in alloc; "refused about {about} code {code} kept {kept} more {more}"),
        ServerFrame::Alive => String::from_str(alloc, "alive"),
    }
}

fn told_base(alloc: Global, base: &Option<Base>) -> Result<String, AllocError> {
    match base {
        None => Ok(String::new(alloc)),
        Some(base) => {
            let bytes = hex::encode(alloc, base.bytes.bytes())?;
            format!(in alloc; " base {} {}", base.time, bytes.as_str())
        }
    }
}

fn told_entry(alloc: Global, entry: &Entry) -> Result<String, AllocError> {
    let what = told_what(alloc, &entry.what)?;
    format!(in alloc;
        "recv {} time {} view {} {}",
        entry.seq,
        entry.time,
        entry.view,
        what.as_str()
    )
}

fn told_what(alloc: Global, what: &What) -> Result<String, AllocError> {
    match what {
        What::Join => String::from_str(alloc, "join"),
        What::Exit => String::from_str(alloc, "exit"),
        What::Event { number, payload } => {
            let payload = hex::encode(alloc, payload.bytes())?;
            format!(in alloc; "event {number} {}", payload.as_str())
        }
    }
}
