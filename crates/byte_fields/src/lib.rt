//! Fields of bytes, read and written. Numbers are big-endian.
//!
//! Each reader takes a field from the front of bytes: it gives the value and the bytes after it, or nothing where the
//! bytes do not begin with such a field. No reader takes memory. A [`Writer`] adds fields at the end.
#![tactic(auto)]

mod fields;
mod writer;

pub use fields::{after_mark, blob_at, bytes_at, text_at, u8_at, u16_at, u32_at, u64_at};
pub use writer::Writer;
