//! What a call tells, in numbers.
ghost use Rattle.std.specs.Prelude.{◌≡◌};
ghost use Rattle.croquet_page.specs.Numbers.{answer_number as number_of_answer, bit as bit_of, closed_told as told_of_none, code_of, end_of, refusal_code, refusal_value, status_of, value_of, want_number as number_of_want};

use live_view::LiveWant;
use view_shell::ViewEnd;

/// How a call of a page went.
#[derive(Clone, Copy, Debug, PartialEq, Eq)]
pub enum Answer {
    Done,
    /// The number is of nothing that is told. The page is as it was.
    NoKind,
    WantOfMemory,
}

/// What a call tells. What lies to be copied out are the frames and the text.
#[repr(C)]
#[derive(Clone, Copy)]
pub struct Told {
    /// The world's time, in microseconds.
    pub time: u64,
    /// How many bytes of text there are.
    pub text: u64,
    /// How many frames there are.
    pub frames: u64,
    /// How many events that the page published are not acknowledged.
    pub unacknowledged: u64,
    /// The value that came with a refusal.
    pub kept: u64,
    /// How many entries of its session's log the page has.
    pub seen: u32,
    /// 0: the call was done. 8: memory was wanted. 9: the seat is empty. 12: the number is of nothing that is told.
    pub status: u32,
    /// What the page wants next. 0: to be told something. 1: a link. 2: nothing, since it has ended.
    pub want: u32,
    /// The status with which `croquet join` would exit, where the page has ended.
    pub end: u32,
    /// The code of a refusal.
    pub code: u32,
    /// 1 where the page has come to the entry by which it joined.
    pub here: u32,
}

/// 1 for true.
pub fn bit(flag: bool) -> u32
    ensures { result ≡ bit_of flag }
{
    match flag {
        true => 1,
        false => 0,
    }
}

/// The number of an answer.
pub fn answer_number(answer: Answer) -> u32
    ensures { result ≡ number_of_answer answer }
{
    match answer {
        Answer::Done => 0,
        Answer::NoKind => 12,
        Answer::WantOfMemory => 8,
    }
}

/// The number of what a page wants next.
pub fn want_number(want: LiveWant) -> u32
    ensures { result ≡ number_of_want want }
{
    match want {
        LiveWant::Input => 0,
        LiveWant::Link => 1,
        LiveWant::Over(_) => 2,
    }
}

/// The status with which a program ends whose view ends so.
fn status(end: ViewEnd) -> u32
    ensures { result ≡ status_of end }
{
    match end {
        ViewEnd::Done => 0,
        ViewEnd::WriteFault => 5,
        ViewEnd::NetFault => 6,
        ViewEnd::Refused { .. } => 7,
        ViewEnd::WantOfMemory => 8,
        ViewEnd::Ended => 9,
        ViewEnd::Peer => 10,
    }
}

/// That status, where a page has ended.
pub fn end_number(want: LiveWant) -> u32
    ensures { result ≡ end_of want }
{
    match want {
        LiveWant::Input => 0,
        LiveWant::Link => 0,
        LiveWant::Over(end) => status(end),
    }
}

/// The code of a refusal, and the value that came with it.
fn refused_by(end: ViewEnd) -> (u32, u64)
    ensures code { result.0 ≡ code_of end }
    ensures value { result.1 ≡ value_of end }
{
    match end {
        ViewEnd::Done => (0, 0),
        ViewEnd::WriteFault => (0, 0),
        ViewEnd::NetFault => (0, 0),
        ViewEnd::Refused { code, kept } => (u32::from(code), kept),
        ViewEnd::WantOfMemory => (0, 0),
        ViewEnd::Ended => (0, 0),
        ViewEnd::Peer => (0, 0),
    }
}

/// The code of the refusal by which a page has ended, and the value that came with it.
pub fn refusal(want: LiveWant) -> (u32, u64)
    ensures code { result.0 ≡ refusal_code want }
    ensures value { result.1 ≡ refusal_value want }
{
    match want {
        LiveWant::Input => (0, 0),
        LiveWant::Link => (0, 0),
        LiveWant::Over(end) => refused_by(end),
    }
}

/// What a call of an empty seat tells.
pub fn closed_told() -> Told
    ensures { result ≡ told_of_none }
{
    Told {
        time: 0,
        text: 0,
        frames: 0,
        unacknowledged: 0,
        kept: 0,
        seen: 0,
        status: 9,
        want: 2,
        end: 0,
        code: 0,
        here: 0,
    }
}
