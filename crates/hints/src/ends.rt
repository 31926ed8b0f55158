//! Hints on calls of the system that failed, and on what a reflector or a link has said.
use std::alloc::Global;
use std::io::ErrorKind;
use std::str;
use tea_base::{Text, WantOfMemory};
use text_lines::split_words;
use wire_frames::RefusalCode;

/// A call of a file that failed.
#[derive(Debug, Drop)]
pub struct FileFailure {
    pub name: Text,
    /// Whether the file was to be written.
    pub is_write: bool,
    pub reason: ErrorKind,
}

/// Why a net did not listen, or a link failed.
#[derive(Clone, Copy, Debug, PartialEq, Eq)]
pub enum NetReason {
    /// The system gave no listener, or no connection, for this reason.
    System(ErrorKind),
    /// The handshake of the link was not done.
    Handshake,
    /// A link failed once it was open, or no further link came.
    Link,
}

/// Why the system refused a file, in plain words.
fn file_reason(failure: &FileFailure) -> &'static str {
    match failure.reason {
        ErrorKind::NotFound if failure.is_write => "there is no such folder",
        ErrorKind::NotFound => "there is no such file",
        ErrorKind::PermissionDenied => "the system does not permit it",
        ErrorKind::IsADirectory => "it is a folder",
        ErrorKind::NotADirectory => "a part of its path is no folder",
        ErrorKind::InvalidFilename | ErrorKind::InvalidInput => "the system takes no such name",
        ErrorKind::FilesystemLoop => "its symbolic links go in a circle",
        ErrorKind::StorageFull | ErrorKind::QuotaExceeded => "the disk is full",
        ErrorKind::FileTooLarge => "the system permits no file of this length",
        ErrorKind::ReadOnlyFilesystem => "the disk is not to be written",
        ErrorKind::AlreadyExists => "all names for a new file next to it are in use",
        _ => "the system refused it",
    }
}

/// A hint on a file that the system refused.
pub fn file_hint(alloc: Global, failure: &FileFailure) -> Result<String, WantOfMemory> {
    let (name, reason) = (failure.name.as_str(), file_reason(failure));
    if failure.is_write {
        return Ok(format!(in alloc; "{name}: the file was not written: {reason}\n")?);
    }
    Ok(format!(in alloc; "{name}: {reason}\n")?)
}

/// A hint in a line of its own.
pub fn plain_hint(alloc: Global, message: &str) -> Result<String, WantOfMemory> {
    Ok(format!(in alloc; "hint: {message}\n")?)
}

/// Why a reflector has no net, and what to do.
fn reflector_text(reason: NetReason) -> &'static str {
    match reason {
        NetReason::System(ErrorKind::AddrInUse) =>
            "the port is taken: take another one, or end the program that has it",
        NetReason::System(ErrorKind::AddrNotAvailable) =>
            "this machine does not have that address: `localhost` and 0.0.0.0 are always there",
        NetReason::System(ErrorKind::PermissionDenied) =>
            "the system does not permit that port: take one from 1024 on",
        NetReason::System(_) => "the system does not let it listen there",
        NetReason::Handshake | NetReason::Link =>
            "the system gave no further link: those that it gave were served to their ends",
    }
}

/// Why a view has no link, and what to do.
fn view_text(reason: NetReason) -> &'static str {
    match reason {
        NetReason::System(ErrorKind::ConnectionRefused) =>
            "start `reflect` first, and wait for its line `listening at`. It ends once its links have ended",
        NetReason::System(ErrorKind::TimedOut) => "nobody answered there in 5 seconds",
        NetReason::System(ErrorKind::NetworkUnreachable | ErrorKind::HostUnreachable) =>
            "no way leads there",
        NetReason::System(_) => "the system made no connection",
        NetReason::Handshake =>
            "the handshake was not answered: the reflector takes no further link, or what listens there is none",
        NetReason::Link =>
            "the link failed once it was open: the other end reset it or broke the rules of WebSockets, or took not a byte for 5 seconds",
    }
}

/// A hint on a link or a net that failed, to or at an address.
pub fn net_hint(
    alloc: Global,
    address: &str,
    is_reflector: bool,
    reason: NetReason,
) -> Result<String, WantOfMemory> {
    let text = if is_reflector {
        reflector_text(reason)
    } else {
        view_text(reason)
    };
    if reason == NetReason::System(ErrorKind::ConnectionRefused) {
        return Ok(format!(in alloc; "hint: nobody listens at {address}: {text}\n")?);
    }
    Ok(format!(in alloc; "hint: at {address}: {text}\n")?)
}

/// What a code of a refusal means, and what to do.
fn code_text(code: Option<RefusalCode>) -> &'static str {
    match code {
        Some(RefusalCode::Stale) =>
            "stale: the view has joined by another link since, or is not here. Give each view a number of its own",
        Some(RefusalCode::TooLong) =>
            "too-long: a payload has more than 4,096 bytes, or a snapshot more than 4,194,304. Send less, keep less in the world",
        Some(RefusalCode::Differs) =>
            "differs: the view has sent another event with this number. Two clients use one VIEW: take another one",
        Some(RefusalCode::Gap) =>
            "gap: the number of the event is not the view's next one. Take another VIEW",
        Some(RefusalCode::LogFull) => "log-full: the log has no room left. Begin another session",
        Some(RefusalCode::TimeEnd) =>
            "time-end: the time of the session has ended. Begin another session",
        Some(RefusalCode::ViewsFull) => "views-full: 1,024 views are here. Wait until one leaves",
        Some(RefusalCode::BadView) => "bad-view: the number of the view is 0. Take one from 1 on",
        Some(RefusalCode::Ahead) =>
            "ahead: the view was in another session, or in a run whose reflector was killed. Join as a new VIEW",
        Some(RefusalCode::OtherSession) =>
            "another session: PROGRAM, NAME and the persisted value have to be those of the reflector, to the last byte",
        Some(RefusalCode::BadFrame) =>
            "no frame: the reflector could not read what it was sent. Are both of one release?",
        Some(RefusalCode::NotJoined) => "not joined: the reflector was sent a frame before JOIN",
        Some(RefusalCode::AlreadyJoined) =>
            "joined already: the reflector was sent a second JOIN on one link",
        Some(RefusalCode::Older | RefusalCode::NoSuchSeq) | None =>
            "a code that this program does not know",
    }
}

/// The code that a word names by its number, if it names one.
fn read_code(word: &str) -> Option<RefusalCode> {
    RefusalCode::of(word.parse::<u8>().ok()?)
}

/// A hint on a line `refused CODE KEPT`.
pub fn refused_hint(alloc: Global, line: &[u8]) -> Result<String, WantOfMemory> {
    let text = str::from_utf8(line).unwrap_or_default();
    let words = split_words(alloc, text.trim_end())?;
    let meaning = code_text(read_code(words.get(1).copied().unwrap_or_default()));
    let message = format!(in alloc; "the reflector refused it, {meaning}")?;
    plain_hint(alloc, message.as_str())
}
