//! Frames in memory of their own.
ghost use Rattle.std.specs.Prelude.{◌≡◌, IfOk};
ghost use Rattle.wire_frames.specs.Lent.{frame_entry_of, base_of, server_of, client_of};

use crate::frame::{ClientFrame, ServerFrame};
use crate::lent::{LentBase, LentClient, LentFrameEntry, LentServer};
use crate::start::Base;
use std::alloc::Global;
use tea_base::{Blob, Entry, WantOfMemory};

fn own_entry(alloc: Global, entry: LentFrameEntry<'_>) -> Result<Entry, WantOfMemory>
    ensures { IfOk result (λ owned. owned ≡ frame_entry_of entry.entry) }
{
    Ok(Entry {
        seq: entry.seq,
        time: entry.time,
        view: entry.view,
        what: entry.what.own(alloc)?,
    })
}

fn own_base(alloc: Global, base: Option<LentBase<'_>>) -> Result<Option<Base>, WantOfMemory>
    ensures { IfOk result (λ owned. owned ≡ base_of base.entry) }
{
    match base {
        None => Ok(None),
        Some(base) => Ok(Some(Base {
            time: base.time,
            bytes: Blob::copy(alloc, base.bytes)?,
        })),
    }
}

/// A frame of a reflector, in memory of its own.
pub fn own_server(alloc: Global, frame: LentServer<'_>) -> Result<ServerFrame, WantOfMemory>
    ensures { IfOk result (λ owned. owned ≡ server_of frame.entry) }
{
    match frame {
        LentServer::Sync {
            joined,
            last,
            from,
            base,
        } => Ok(ServerFrame::Sync {
            joined,
            last,
            from,
            base: own_base(alloc, base)?,
        }),
        LentServer::Recv(entry) => Ok(ServerFrame::Recv(own_entry(alloc, entry)?)),
        LentServer::Tick(time) => Ok(ServerFrame::Tick(time)),
        LentServer::Done { number, seq, time } => Ok(ServerFrame::Done { number, seq, time }),
        LentServer::Snapped { time } => Ok(ServerFrame::Snapped { time }),
        LentServer::Refused {
            about,
            code,
            kept,
            more,
        } => Ok(ServerFrame::Refused {
            about,
            code,
            kept,
            more,
        }),
        LentServer::Alive => Ok(ServerFrame::Alive),
    }
}

/// A frame of a view, in memory of its own.
pub fn own_client(alloc: Global, frame: LentClient<'_>) -> Result<ClientFrame, WantOfMemory>
    ensures { IfOk result (λ owned. owned ≡ client_of frame.entry) }
{
    match frame {
        LentClient::Join {
            session,
            view,
            want,
        } => Ok(ClientFrame::Join {
            session,
            view,
            want,
        }),
        LentClient::Send { number, payload } => Ok(ClientFrame::Send {
            number,
            payload: Blob::copy(alloc, payload)?,
        }),
        LentClient::Snap { time, bytes } => Ok(ClientFrame::Snap {
            time,
            bytes: Blob::copy(alloc, bytes)?,
        }),
        LentClient::Leave => Ok(ClientFrame::Leave),
        LentClient::Alive => Ok(ClientFrame::Alive),
    }
}
