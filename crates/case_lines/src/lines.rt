//! Lines of a file, and what a run printed, in one line of a case.
use std::alloc::Global;
use tea_base::WantOfMemory;

/// What stands between two lines in a case.
const BETWEEN: &str = " / ";

/// The bytes of a case, with an LF in place of each ` / `.
pub fn lines_of(alloc: Global, case: &[u8]) -> Result<Vec<u8>, WantOfMemory> {
    let mut lines = Vec::new(alloc);
    let mut left = 0_usize;
    for (place, byte) in case.iter().enumerate() {
        if left > 0 {
            left -= 1;
        } else if case[place..].starts_with(BETWEEN.as_bytes()) {
            lines.push(b'\n')?;
            left = 2;
        } else {
            lines.push(*byte)?;
        }
    }
    Ok(lines)
}

/// What a run printed, its lines divided by ` / `, and its status in square brackets if it is not 0.
pub fn told_lines(alloc: Global, printed: &[u8], status: u8) -> Result<String, WantOfMemory> {
    let text = String::from_utf8_lossy(alloc, printed)?;
    let mut told = String::new(alloc);
    for line in text.as_str().lines() {
        if !told.is_empty() {
            told.push_str(BETWEEN)?;
        }
        told.push_str(line)?;
    }
    if status != 0 {
        if !told.is_empty() {
            told.push(' ')?;
        }
        told.push_str(format!(in alloc; "[{status}]")?.as_str())?;
    }
    Ok(told)
}
