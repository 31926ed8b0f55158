//! A live view in memory that a host holds: a page in a browser, or any program that calls C functions.
//!
//! The host owns the link, the lines and the clock. It makes a seat by `page_seat`, opens a page in it by `page_open`, and tells the page by
//! `page_step` one thing at a time: that a link is there, what it said, or a line. `page_frame` and `page_text` copy out what the last call
//! told, and `page_world` tells the world in full. `page_close` empties the seat. A call of an empty seat is answered so, and does nothing.
//!
//! What a page does at each thing is [`live_view::LiveView::step`], for any bytes.
#![tactic(auto)]

mod copying;
mod exports;
mod handle;
mod inputs;
mod living;
mod opening;
mod page;
mod seat;
mod told;
