//! Words of a case.
use case_lines::CaseFault;
use tea_base::Numbers;
use text_lines::number;

/// The text that the bytes spell in UTF-8.
pub(crate) fn text_of(bytes: &[u8]) -> Result<&str, CaseFault> {
    str::from_utf8(bytes).map_err(|_| CaseFault::NoCase)
}

/// The number that decimal digits spell.
pub(crate) fn number_of(digits: &str) -> Result<u32, CaseFault> {
    match number(digits, 0, 100_000) {
        Some(number) => Ok(number as u32),
        None => Err(CaseFault::NoCase),
    }
}

/// Adds the number of `N`, or those of `N-M`.
pub(crate) fn add_numbers(numbers: &mut Numbers, word: &str) -> Result<(), CaseFault> {
    let (first, last) = word.split_once('-').unwrap_or((word, word));
    for number in number_of(first)?..=number_of(last)? {
        numbers.push(number)?;
    }
    Ok(())
}
