//! What a host tells a page.
ghost use Rattle.std.specs.Prelude.{◌≡◌};
ghost use Rattle.croquet_page.specs.Inputs.{input_of};

use live_view::LiveInput;
use tea_base::Blob;
use tea_io::Heard;

/// What a host tells by this number, with these bytes: 0, a link is there; 1, none was made; 2, the link said a frame; 3, it is quiet;
/// 4, it has ended; 5, a line came; 6, no line will come. Other numbers tell nothing. Takes no memory.
pub fn input_of(kind: u32, bytes: Blob) -> Option<LiveInput>
    ensures { result ≡ input_of kind bytes }
{
    match kind {
        0 => Some(LiveInput::Linked),
        1 => Some(LiveInput::LinkFailed),
        2 => Some(LiveInput::Says(Heard::Frame(bytes))),
        3 => Some(LiveInput::Says(Heard::Quiet)),
        4 => Some(LiveInput::Says(Heard::End)),
        5 => Some(LiveInput::Line(bytes)),
        6 => Some(LiveInput::Closed),
        _ => None,
    }
}
