//! Hints on the files of sessions: what is wrong with the bytes of a log, of a journal or of a snapshot, and at which byte.
use crate::place::Source;
use byte_fields::{Writer, blob_at, u8_at, u32_at, u64_at};
use session_log::{LogFault, decode_stored, entry_at};
use std::alloc::Global;
use tea_base::WantOfMemory;

/// With what a log begins.
const LOG: &[u8; 8] = b"TEALOG01";

/// With what a stored session begins that is more than a log.
const STORED: &[u8; 8] = b"TEALOG02";

/// With what a journal begins.
const JOURNAL: &[u8; 8] = b"TEALOG03";

/// Where the number of entries of a log is, and where what is kept of a stored session is.
const LIST_PLACE: usize = 8;

const KEPT_PLACE: usize = 16;

/// Where the kind of an entry is, after its time and its view.
const KIND_PLACE: usize = 12;

/// The entries of a log, up to the first one that cannot be read.
#[derive(Drop)]
struct Entries {
    /// Where the first one begins.
    begin: usize,
    /// How many there should be.
    count: u32,
    /// Where each one ends that can be read.
    ends: Vec<usize>,
}

impl Entries {
    /// Where the entry of a number from 0 begins.
    fn begin_of(&self, number: usize) -> usize {
        match number {
            0 => self.begin,
            _ => match self.ends.get(number.saturating_sub(1)) {
                Some(end) => *end,
                None => self.begin,
            },
        }
    }

    /// Where the last one ends that can be read.
    fn end(&self) -> usize {
        self.begin_of(self.ends.len())
    }

    /// Whether each of them can be read.
    fn are_whole(&self) -> bool {
        self.ends.len() as u64 == u64::from(self.count)
    }
}

/// A hint on a byte of a file.
fn byte_hint(
    alloc: Global,
    source: Source<'_, '_>,
    at: usize,
    message: &str,
) -> Result<String, WantOfMemory> {
    let file = source.file;
    Ok(format!(in alloc; "{file}: at byte {at}: {message}\n")?)
}

/// A hint on a file that ends too early.
fn end_hint(alloc: Global, source: Source<'_, '_>, message: &str) -> Result<String, WantOfMemory> {
    byte_hint(alloc, source, source.text.len(), message)
}

/// A hint on a file that is no log, or on one whose session cannot go on.
pub fn log_hint(alloc: Global, source: Source<'_, '_>) -> Result<String, WantOfMemory> {
    let bytes = source.text;
    if bytes.starts_with(JOURNAL) {
        return end_hint(
            alloc,
            source,
            "the file is cut short: a journal begins with a mark and the session's id, 40 bytes",
        );
    }
    if bytes.starts_with(LOG) {
        return entries_hint(alloc, source, LIST_PLACE);
    }
    if bytes.starts_with(STORED) {
        return stored_hint(alloc, source);
    }
    if LOG.starts_with(bytes) {
        return end_hint(
            alloc,
            source,
            "the file is cut short: a log begins with 8 bytes of a mark",
        );
    }
    byte_hint(
        alloc,
        source,
        0,
        "this is no log: a log begins with TEALOG01, TEALOG02 or TEALOG03. Give the file that `stamp`, `reflect` or `drill` wrote",
    )
}

/// A hint on a stored session that is more than a log.
fn stored_hint(alloc: Global, source: Source<'_, '_>) -> Result<String, WantOfMemory> {
    let kept = source.text.get(KEPT_PLACE..).unwrap_or_default();
    match u8_at(kept) {
        Some((0, _rest)) => entries_hint(alloc, source, KEPT_PLACE.saturating_add(1)),
        Some((1, rest)) => kept_hint(alloc, source, rest),
        Some(_) => byte_hint(
            alloc,
            source,
            KEPT_PLACE,
            "this byte says whether a snapshot is kept, and is neither 0 nor 1",
        ),
        None => end_hint(
            alloc,
            source,
            "the file is cut short: the time of the session is 8 bytes, and a byte says whether a snapshot is kept",
        ),
    }
}

/// A hint on a stored session that keeps a snapshot.
fn kept_hint(alloc: Global, source: Source<'_, '_>, kept: &[u8]) -> Result<String, WantOfMemory> {
    if let Some((_time, field)) = u64_at(kept) {
        if let Some((_snapshot, rest)) = blob_at(field) {
            return entries_hint(alloc, source, source.text.len().saturating_sub(rest.len()));
        }
    }
    end_hint(
        alloc,
        source,
        "the file is cut short, within the snapshot that is kept",
    )
}

/// The entries of a list that begins at a byte, if their number is there.
fn entries_at(alloc: Global, text: &[u8], at: usize) -> Result<Option<Entries>, WantOfMemory> {
    let Some((count, list)) = u32_at(text.get(at..).unwrap_or_default()) else {
        return Ok(None);
    };
    let mut ends: Vec<usize> = Vec::new(alloc);
    let mut rest = list;
    for _ in 0..count {
        let Some((_entry, after)) = entry_at(rest) else {
            break;
        };
        rest = after;
        ends.push(text.len().saturating_sub(rest.len()))?;
    }
    let begin = text.len().saturating_sub(list.len());
    Ok(Some(Entries { begin, count, ends }))
}

/// A hint on the entries of a list that begins at a byte.
fn entries_hint(alloc: Global, source: Source<'_, '_>, at: usize) -> Result<String, WantOfMemory> {
    let Some(entries) = entries_at(alloc, source.text, at)? else {
        return end_hint(
            alloc,
            source,
            "the file is cut short: the number of the entries is 4 bytes",
        );
    };
    if let Some(number) = first_illegal(alloc, source.text, &entries)? {
        return illegal_hint(alloc, source, &entries, number);
    }
    if !entries.are_whole() {
        return unread_hint(alloc, source, &entries);
    }
    if entries.end() < source.text.len() {
        return byte_hint(
            alloc,
            source,
            entries.end(),
            "more bytes follow the end of the log",
        );
    }
    byte_hint(
        alloc,
        source,
        LIST_PLACE,
        "the entries are right, but the time of the session, or its snapshot, does not go with them",
    )
}

/// A hint on an entry that may not follow those before it.
fn illegal_hint(
    alloc: Global,
    source: Source<'_, '_>,
    entries: &Entries,
    number: usize,
) -> Result<String, WantOfMemory> {
    let entry = number.saturating_add(1);
    let message = format!(in alloc;
        "entry {entry} may not come here: its time, its view or its number does not follow the entries before it"
    )?;
    byte_hint(alloc, source, entries.begin_of(number), message.as_str())
}

/// A hint on the first entry that cannot be read.
fn unread_hint(
    alloc: Global,
    source: Source<'_, '_>,
    entries: &Entries,
) -> Result<String, WantOfMemory> {
    let at = entries.end();
    let kind = at.saturating_add(KIND_PLACE);
    if matches!(source.text.get(kind), Some(0 | 4..=255)) {
        return byte_hint(alloc, source, kind, "the kind of an entry is 1, 2 or 3");
    }
    let (number, count) = (entries.ends.len().saturating_add(1), entries.count);
    let message = format!(in alloc;
        "the file is cut short: entry {number} of {count} is not whole"
    )?;
    byte_hint(alloc, source, at, message.as_str())
}

/// Whether the first so many entries are those of a log.
fn is_legal(
    alloc: Global,
    text: &[u8],
    entries: &Entries,
    count: usize,
) -> Result<bool, WantOfMemory> {
    let mut writer = Writer::new(alloc);
    writer.put_bytes(LOG)?;
    writer.put_u32(u32::try_from(count).unwrap_or(u32::MAX))?;
    writer.put_bytes(
        text.get(entries.begin..entries.begin_of(count))
            .unwrap_or_default(),
    )?;
    let log = writer.done();
    match decode_stored(alloc, log.bytes()) {
        Ok(_stored) => Ok(true),
        Err(LogFault::BadLog) => Ok(false),
        Err(LogFault::WantOfMemory) => Err(WantOfMemory),
    }
}

/// The first entry of those that can be read which may not follow those before it, from 0.
fn first_illegal(
    alloc: Global,
    text: &[u8],
    entries: &Entries,
) -> Result<Option<usize>, WantOfMemory> {
    let mut legal: usize = 0;
    let mut illegal = entries.ends.len();
    if is_legal(alloc, text, entries, illegal)? {
        return Ok(None);
    }
    for _ in 0..usize::BITS {
        let middle = legal.saturating_add(illegal) / 2;
        if middle == legal {
            break;
        }
        if is_legal(alloc, text, entries, middle)? {
            legal = middle;
        } else {
            illegal = middle;
        }
    }
    Ok(Some(legal))
}

/// A hint on a snapshot that is none of a world of a session with this id.
pub fn snapshot_hint(
    alloc: Global,
    source: Source<'_, '_>,
    id: Option<&[u8]>,
) -> Result<String, WantOfMemory> {
    let Some(front) = source.text.get(..32) else {
        return byte_hint(
            alloc,
            source,
            0,
            "the file is cut short: a snapshot begins with the session's id, 32 bytes",
        );
    };
    match id {
        Some(id) if id != front => byte_hint(
            alloc,
            source,
            0,
            "this snapshot is of another session, or no snapshot: the program text, NAME and the persisted value are those with which it was made, to the last byte",
        ),
        Some(_) => byte_hint(
            alloc,
            source,
            32,
            "the id is right, and what follows it is no valid world of the program: the file is cut short or was changed",
        ),
        None => byte_hint(
            alloc,
            source,
            0,
            "this is no snapshot of this session: it is of another one, is cut short or was changed",
        ),
    }
}
