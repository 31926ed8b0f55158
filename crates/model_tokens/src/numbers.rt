//! Numbers.
ghost use Rattle.std.specs.Prelude.{◌≡◌, pos, nat_le, if◌then◌else◌, Some, None};
ghost use Rattle.std.specs.Str.Parse.{digits_value, AllDigits};
ghost use Rattle.model_tokens.specs.Reader.{number_token_at};
ghost use Rattle.model_tokens.specs.Answer.{ReadsToken};

use crate::bytes::digits_length;
use crate::dividing::TokenFault;
use crate::token::Token;

/// The number that the digits write, if it is at most 9,223,372,036,854,775,807.
fn value(digits: &[u8]) -> Option<i64>
    requires { AllDigits 10 digits.now }
    ensures { result ≡ (if nat_le (digits_value 10 digits.now) 9_223_372_036_854_775_807
        then Some (pos (digits_value 10 digits.now)) else None) }
{
    let mut value: u64 = 0;
    for digit in digits {
        value = value
            .checked_mul(10)?
            .checked_add(u64::from(*digit - b'0'))?;
    }
    i64::try_from(value).ok()
}

/// The number at the front, and the bytes behind it.
pub fn number(text: &[u8]) -> Result<(Token, &[u8]), TokenFault>
    ensures { ReadsToken result (number_token_at text.now) }
{
    if let Some((b'0', behind)) = text.split_first() {
        return Ok((Token::Number(0), behind));
    }
    let (digits, rest) = text.split_at(digits_length(text));
    match value(digits) {
        Some(value) => Ok((Token::Number(value), rest)),
        None => Err(TokenFault::NoToken),
    }
}
