//! What cases are of, and what they come to.
use crate::fault::FrameCaseFault;
use crate::{client, server};
use case_lines::{CaseFault, CaseKind};
use std::alloc::Global;
use tea_base::{Blob, WantOfMemory};

/// What cases are of.
#[derive(Clone, Copy)]
pub(crate) enum SessionCases {
    Client,
    Server,
}

impl CaseKind for SessionCases {
    fn of_word(word: &str) -> Option<Self> {
        match word {
            "client" => Some(SessionCases::Client),
            "server" => Some(SessionCases::Server),
            _ => None,
        }
    }

    fn outcome(&self, alloc: Global, case: &[u8]) -> Result<String, CaseFault> {
        match outcome(alloc, *self, case) {
            Ok(outcome) => Ok(outcome),
            Err(FrameCaseFault::BadFrame) => Ok(String::from_str(alloc, "bad")?),
            Err(FrameCaseFault::WantOfMemory) => Err(CaseFault::WantOfMemory),
        }
    }
}

fn outcome(alloc: Global, kind: SessionCases, case: &[u8]) -> Result<String, FrameCaseFault> {
    let bytes = hex::decode(alloc, case)?;
    let (mut told, again) = match kind {
        SessionCases::Client => client::client_outcome(alloc, bytes.as_slice())?,
        SessionCases::Server => server::server_outcome(alloc, bytes.as_slice())?,
    };
    put_other_spelling(alloc, &mut told, bytes.as_slice(), &again)?;
    Ok(told)
}

/// Adds the bytes that a frame was written as, where they are not those that it was read from.
fn put_other_spelling(
    alloc: Global,
    told: &mut String,
    bytes: &[u8],
    again: &Blob,
) -> Result<(), WantOfMemory> {
    if !again.is_bytes(bytes) {
        told.push_str(" but spelled ")?;
        told.push_str(hex::encode(alloc, again.bytes())?.as_str())?;
    }
    Ok(())
}
