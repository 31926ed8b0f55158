//! What a host calls. Each export does what the method of the same name of the seat does, and says its clauses again.
ghost use Rattle.std.specs.Prelude.{◌≡◌, ◌⊎◌, length, None};
ghost use Rattle.croquet_page.specs.Inputs.{input_of};
ghost use Rattle.croquet_page.specs.Seats.{LooksSeat, OpensSeat, TellsSeat, frame_at, laid_over, text_in};

use crate::handle::Handle;
use crate::seat::Seat;
use crate::told::Told;
use std::alloc::Global;

/// Makes an empty seat, and writes its handle. 0: it is there. 8: memory was wanted, and nothing was written.
#[unsafe(no_mangle)]
pub extern "C" fn page_seat(alloc: Global, place: &mut *mut u8) -> u32
    ensures answers { (result ≡ 0) ⊎ (result ≡ 8) }
    ensures unwritten { result ≡ 8 → place.new ≡ place.old }
{
    match Box::new(alloc, Seat::new(alloc)) {
        Ok(seat) => {
            *place = Box::into_raw(seat) as *mut u8;
            0
        }
        Err(_) => 8,
    }
}

/// Opens a page in the seat, in place of the one that was.
///
/// 0: it is open. 2: the program is refused, and `page_text` copies out why. 3: the name is no UTF-8, or has more than 255 bytes. 4: the
/// number of the view is 0. 8: memory was wanted. But for 0 the seat is empty.
#[unsafe(no_mangle)]
pub extern "C" fn page_open(
    alloc: Global,
    handle: &mut Handle,
    program: &[u8],
    name: &[u8],
    view: u32,
) -> u32
    ensures { OpensSeat program.now name.now view handle.new.seat result }
{
    handle.get().open_page(alloc, program, name, view)
}

/// Tells the page one thing: 0, a link is there; 1, none was made; 2, the link said this frame; 3, it is quiet; 4, it has ended; 5, this line
/// came, without the LF that ends it; 6, no line will come.
#[unsafe(no_mangle)]
pub extern "C" fn page_step(handle: &mut Handle, kind: u32, bytes: &[u8], told: &mut Told)
    ensures tells { TellsSeat (input_of kind bytes.now) handle.old.seat.page handle.new.seat.page told.new }
    ensures line { handle.new.seat.line ≡ handle.old.seat.line }
{
    *told = handle.get().tell(kind, bytes);
}

/// Asks the page for its world: the text is what the line `show` of a view prints.
#[unsafe(no_mangle)]
pub extern "C" fn page_world(handle: &mut Handle, told: &mut Told)
    ensures looks { LooksSeat handle.old.seat.page handle.new.seat.page told.new }
    ensures line { handle.new.seat.line ≡ handle.old.seat.line }
{
    *told = handle.get().look();
}

/// Copies out the frame at this place, from 0, among those that the last call told, as far as there is room, and gives its length. It is 0
/// where there is none.
#[unsafe(no_mangle)]
pub extern "C" fn page_frame(handle: &mut Handle, index: u32, room: &mut [u8]) -> u64
    ensures count { result ≡ length (frame_at index handle.old.seat.page) }
    ensures copied { room.new ≡ laid_over (frame_at index handle.old.seat.page) room.old }
    ensures kept { handle.new.seat ≡ handle.old.seat }
{
    handle.get().frame(index, room)
}

/// Copies out the text that the last call told, as far as there is room, and gives its length.
#[unsafe(no_mangle)]
pub extern "C" fn page_text(handle: &mut Handle, room: &mut [u8]) -> u64
    ensures count { result ≡ length (text_in handle.old.seat.line handle.old.seat.page) }
    ensures copied { room.new ≡ laid_over (text_in handle.old.seat.line handle.old.seat.page) room.old }
    ensures kept { handle.new.seat ≡ handle.old.seat }
{
    handle.get().text(room)
}

/// Closes the page: the seat is empty, and another page may be opened in it.
#[unsafe(no_mangle)]
pub extern "C" fn page_close(handle: &mut Handle)
    ensures page { handle.new.seat.page ≡ None }
    ensures line { handle.new.seat.line ≡ handle.old.seat.line }
{
    handle.get().close();
}
