//! Writing frames.
ghost use Rattle.std.specs.Prelude.{◌≡◌, ◌++◌, ◌∷◌, OnOk, IfOk};
ghost use Rattle.std.specs.Int.{to_be_bytes, w64};
ghost use Rattle.wire_frames.specs.Frames.{FitsBase, FitsClient, FitsServer};
ghost use Rattle.entry_fields.specs.Spelling.{FitsWhat};
ghost use Rattle.wire_frames.specs.Spelling.{frame_entry_spelling, base_spelling, want_spelling, client_spelling, server_spelling};

use crate::frame::{ClientFrame, ServerFrame};
use crate::start::{Base, Want};
use crate::tags::{
    ALIVE_TAG, DONE_TAG, JOIN_TAG, LEAVE_TAG, RECV_TAG, REFUSED_TAG, SEND_TAG, SERVER_ALIVE_TAG,
    SNAP_TAG, SNAPPED_TAG, SYNC_TAG, TICK_TAG,
};
use byte_fields::Writer;
use entry_fields::{LentWhat, put_what};
use std::alloc::Global;
use tea_base::{Blob, Entry, WantOfMemory};

fn put_entry(out: &mut Writer, entry: &Entry) -> Result<(), WantOfMemory>
    requires { FitsWhat entry.now.what }
    ensures { OnOk result (out.new ≡ out.old ++ frame_entry_spelling entry.now) }
{
    out.put_u32(entry.seq)?;
    out.put_u64(entry.time)?;
    out.put_u32(entry.view)?;
    put_what(out, LentWhat::of(&entry.what))?;
    Ok(())
}

fn put_base(out: &mut Writer, base: &Option<Base>) -> Result<(), WantOfMemory>
    requires { FitsBase base.now }
    ensures { OnOk result (out.new ≡ out.old ++ base_spelling base.now) }
{
    match base {
        None => {
            out.put_u8(0)?;
            Ok(())
        }
        Some(base) => {
            out.put_u8(1)?;
            out.put_u64(base.time)?;
            out.put_blob(base.bytes.bytes())?;
            Ok(())
        }
    }
}

fn put_want(out: &mut Writer, want: Want) -> Result<(), WantOfMemory>
    ensures { OnOk result (out.new ≡ out.old ++ want_spelling want) }
{
    match want {
        Want::Fresh => {
            out.put_u8(0)?;
            Ok(())
        }
        Want::Whole => {
            out.put_u8(1)?;
            Ok(())
        }
        Want::After(time) => {
            out.put_u8(2)?;
            out.put_u64(time)?;
            Ok(())
        }
    }
}

/// A frame whose one field is a time.
fn put_timed(out: &mut Writer, tag: u8, time: u64) -> Result<(), WantOfMemory>
    ensures { OnOk result (out.new ≡ out.old ++ tag ∷ to_be_bytes w64 time) }
{
    out.put_u8(tag)?;
    out.put_u64(time)?;
    Ok(())
}

fn put_server(out: &mut Writer, frame: &ServerFrame) -> Result<(), WantOfMemory>
    requires { FitsServer frame.now }
    ensures { OnOk result (out.new ≡ out.old ++ server_spelling frame.now) }
{
    match frame {
        ServerFrame::Sync {
            joined,
            last,
            from,
            base,
        } => {
            out.put_u8(SYNC_TAG)?;
            out.put_u32(*joined)?;
            out.put_u32(*last)?;
            out.put_u32(*from)?;
            put_base(out, base)?;
            Ok(())
        }
        ServerFrame::Recv(entry) => {
            out.put_u8(RECV_TAG)?;
            put_entry(out, entry)?;
            Ok(())
        }
        ServerFrame::Tick(time) => put_timed(out, TICK_TAG, *time),
        ServerFrame::Done { number, seq, time } => {
            out.put_u8(DONE_TAG)?;
            out.put_u32(*number)?;
            out.put_u32(*seq)?;
            out.put_u64(*time)?;
            Ok(())
        }
        ServerFrame::Snapped { time } => put_timed(out, SNAPPED_TAG, *time),
        ServerFrame::Refused {
            about,
            code,
            kept,
            more,
        } => {
            out.put_u8(REFUSED_TAG)?;
            out.put_u8(*about)?;
            out.put_u8(*code)?;
            out.put_u64(*kept)?;
            out.put_u64(*more)?;
            Ok(())
        }
        ServerFrame::Alive => out.put_u8(SERVER_ALIVE_TAG),
    }
}

fn put_client(out: &mut Writer, frame: &ClientFrame) -> Result<(), WantOfMemory>
    requires { FitsClient frame.now }
    ensures { OnOk result (out.new ≡ out.old ++ client_spelling frame.now) }
{
    match frame {
        ClientFrame::Join {
            session,
            view,
            want,
        } => {
            out.put_u8(JOIN_TAG)?;
            out.put_bytes(&session.0)?;
            out.put_u32(*view)?;
            put_want(out, *want)?;
            Ok(())
        }
        ClientFrame::Send { number, payload } => {
            out.put_u8(SEND_TAG)?;
            out.put_u32(*number)?;
            out.put_blob(payload.bytes())?;
            Ok(())
        }
        ClientFrame::Snap { time, bytes } => {
            out.put_u8(SNAP_TAG)?;
            out.put_u64(*time)?;
            out.put_blob(bytes.bytes())?;
            Ok(())
        }
        ClientFrame::Leave => {
            out.put_u8(LEAVE_TAG)?;
            Ok(())
        }
        ClientFrame::Alive => {
            out.put_u8(ALIVE_TAG)?;
            Ok(())
        }
    }
}

/// The spelling of a frame of a reflector, in memory of its own. Fails for want of memory alone.
pub fn write_server(alloc: Global, frame: &ServerFrame) -> Result<Blob, WantOfMemory>
    requires { FitsServer frame.now }
    ensures { IfOk result (λ bytes. bytes ≡ server_spelling frame.now) }
{
    let mut out = Writer::new(alloc);
    put_server(&mut out, frame)?;
    Ok(out.done())
}

/// The spelling of a frame of a view, in memory of its own. Fails for want of memory alone.
pub fn write_client(alloc: Global, frame: &ClientFrame) -> Result<Blob, WantOfMemory>
    requires { FitsClient frame.now }
    ensures { IfOk result (λ bytes. bytes ≡ client_spelling frame.now) }
{
    let mut out = Writer::new(alloc);
    put_client(&mut out, frame)?;
    Ok(out.done())
}
