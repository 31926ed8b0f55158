//! Frames of a view.
use crate::fault::FrameCaseFault;
use std::alloc::{AllocError, Global};
use tea_base::Blob;
use wire_frames::{ClientFrame, Want, again_client, read_client, write_client};

/// A frame, in words, and its bytes when it is written, read and written again.
pub(crate) fn client_outcome(
    alloc: Global,
    bytes: &[u8],
) -> Result<(String, Blob), FrameCaseFault> {
    let frame = read_client(alloc, bytes)?;
    let again = write_client(alloc, &again_client(alloc, &frame)?)?;
    Ok((told_frame(alloc, &frame.clone()?)?, again))
}

fn told_frame(alloc: Global, frame: &ClientFrame) -> Result<String, AllocError> {
    match frame {
        ClientFrame::Join {
            session,
            view,
            want,
        } => {
            let session = hex::encode(alloc, session.0.as_slice())?;
            let want = told_want(alloc, *want)?;
            format!(in alloc; "join {} view {view} {}", session.as_str(), want.as_str())
        }
        ClientFrame::Send { number, payload } => {
            let payload = hex::encode(alloc, payload.bytes())?;
            format!(in alloc; "send {number} {}", payload.as_str())
        }
        ClientFrame::Snap { time, bytes } => {
            let bytes = hex::encode(alloc, bytes.bytes())?;
            format!(in alloc; "snap {time} {}", bytes.as_str())
        }
        ClientFrame::Leave => String::from_str(alloc, "leave"),
        ClientFrame::Alive => String::from_str(alloc, "alive"),
    }
}

fn told_want(alloc: Global, want: Want) -> Result<String, AllocError> {
    match want {
        Want::Fresh => String::from_str(alloc, "fresh"),
        Want::Whole => String::from_str(alloc, "whole"),
        Want::After(time) => format!(in alloc; "after {time}"),
    }
}
