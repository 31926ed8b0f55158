//! How far a link is: its handshake, its messages and its end.

use crate::keys::Keys;
use crate::watch::{News, Watch};
use crate::wire::Wire;
use std::alloc::Global;
use std::io;
use std::io::ErrorKind;
use std::net::{Net as Sockets, TcpStream};
use std::random::RandomSource;
use std::time::{Clock, Instant};
use tea_base::Blob;
use tea_io::{Heard, LinkFault, NetFault};
use tungstenite::handshake::server;
use tungstenite::{
    Bytes, ClientHandshake, CloseCode, CloseFrame, Error, HandshakeError, Message, MidHandshake,
    NoCallback, Role, ServerHandshake, Utf8Bytes, WebSocket, WebSocketConfig,
};
use websocket::error::ProtocolError;
use wire_frames::ALIVE_TAG;

/// The longest message that is taken or sent, in bytes.
const LONGEST_MESSAGE: usize = 8_388_608;
/// How many bytes may wait to be sent: a message, and replies to pings.
const LONGEST_OUTPUT: usize = 16_777_216;
/// How often a send goes on with a handshake that is not finished. Each time takes up to 50 milliseconds.
const SEND_TRIES: u32 = 100;

/// A server's handshake that is not finished.
pub type Accepting<R> = MidHandshake<ServerHandshake<Wire<R>, NoCallback>>;

/// A client's handshake that is not finished.
pub type Connecting<R> = MidHandshake<ClientHandshake<Wire<R>, Keys<R>>>;

/// A connection whose handshake is done.
pub type Socket<R> = WebSocket<Wire<R>, Keys<R>>;

/// Why a link is over.
#[derive(Clone, Copy)]
pub enum Last {
    Ended,
    Failed,
    WantOfMemory,
}

impl Last {
    /// The code of the Close that tells the peer so (RFC 6455, 7.4.1).
    fn close_code(self) -> CloseCode {
        match self {
            Last::Ended => CloseCode::Normal,
            Last::Failed => CloseCode::Protocol,
            Last::WantOfMemory => CloseCode::Error,
        }
    }
}

/// How far a link is.
#[derive(Drop)]
pub enum Stage<R: Clock + RandomSource + Copy> {
    Accepting(Accepting<R>),
    Connecting(Connecting<R>),
    Open(Socket<R>),
    /// Nothing more is heard or sent. A handshake that failed leaves no connection.
    Over(Option<Socket<R>>, Last),
    /// Its connection was let go.
    Closed { is_unshaken: bool },
}

/// The limits of a connection.
pub fn limits() -> WebSocketConfig {
    WebSocketConfig::default()
        .max_message_size(Some(LONGEST_MESSAGE))
        .max_frame_size(Some(LONGEST_MESSAGE))
        .max_write_buffer_size(LONGEST_OUTPUT)
}

/// A connection that was accepted, whose handshake is to come, with the news of its net.
pub fn accepting<R: Sockets + Clock + RandomSource + Copy>(
    alloc: Global,
    rt: R,
    stream: TcpStream,
    news: &News,
) -> Result<Stage<R>, NetFault> {
    let Some(news) = news.share() else {
        return Err(NetFault::Failed);
    };
    let watch = Watch::new(alloc, &rt, &stream, Some(news))?;
    let wire = Wire::new(alloc, rt, stream, watch);
    let handshake = server::start(alloc, wire, NoCallback, Some(limits()));
    Ok(Stage::Accepting(handshake))
}

/// What a failed handshake leaves: an orderly end of TCP is an end.
fn last_of(error: &Error) -> Last {
    match error {
        Error::HandshakeIncomplete => Last::Ended,
        Error::OutOfMemory => Last::WantOfMemory,
        Error::Io(error) => {
            if error.kind() == ErrorKind::OutOfMemory {
                Last::WantOfMemory
            } else {
                Last::Failed
            }
        }
        _ => Last::Failed,
    }
}

/// Goes on with a server's handshake.
fn continue_accepting<R: Clock + RandomSource + Copy>(
    alloc: Global,
    mut handshake: Accepting<R>,
) -> Stage<R> {
    if handshake.get_ref().set_options().is_err() {
        return Stage::Over(None, Last::Failed);
    }
    match handshake.handshake() {
        Ok(socket) => {
            let wire = socket.into_inner();
            Stage::Open(WebSocket::from_raw_socket(
                alloc,
                wire,
                Keys::Server,
                Role::Server,
                Some(limits()),
            ))
        }
        Err(HandshakeError::Interrupted(handshake)) => Stage::Accepting(handshake),
        Err(HandshakeError::Failure(error)) => Stage::Over(None, last_of(&error)),
    }
}

/// Goes on with a client's handshake.
fn continue_connecting<R: Clock + RandomSource + Copy>(mut handshake: Connecting<R>) -> Stage<R> {
    if handshake.get_ref().set_options().is_err() {
        return Stage::Over(None, Last::Failed);
    }
    match handshake.handshake() {
        Ok((socket, _)) => Stage::Open(socket),
        Err(HandshakeError::Interrupted(handshake)) => Stage::Connecting(handshake),
        Err(HandshakeError::Failure(error)) => Stage::Over(None, last_of(&error)),
    }
}

/// What follows a read.
#[derive(Clone, Copy)]
enum Next {
    /// It ends the receive.
    Tell,
    /// It was a ping, which was answered, or a pong.
    Ping,
    /// Nothing has come.
    Wait,
}

/// What follows a read that gave this.
fn next_of(read: &Result<Message, Error>) -> Next {
    match read {
        Ok(Message::Ping(_) | Message::Pong(_)) => Next::Ping,
        Err(Error::Io(error)) => {
            if error.kind() == ErrorKind::WouldBlock {
                Next::Wait
            } else {
                Next::Tell
            }
        }
        _ => Next::Tell,
    }
}

/// What a connection says next. Pings are answered. Of pings and pongs only signs of life are given.
fn next_message<R: Clock + RandomSource + Copy>(socket: &mut Socket<R>) -> Result<Message, Error> {
    socket.get_mut().begin();
    for _ in 0..u64::MAX {
        let read = socket.read();
        match next_of(&read) {
            Next::Tell => return read,
            Next::Ping => {
                if socket.get_mut().is_sign_of_life() {
                    return read;
                }
                if socket.get_ref().is_late() {
                    break;
                }
            }
            Next::Wait => {
                if !socket.get_mut().wait() {
                    return read;
                }
            }
        }
    }
    Err(Error::Io(io::Error::from(ErrorKind::WouldBlock)))
}

/// What an error of a read tells.
fn heard_of(error: &Error) -> Heard {
    match error {
        Error::ConnectionClosed => Heard::End,
        Error::Protocol(ProtocolError::ResetWithoutClosingHandshake) => Heard::End,
        Error::OutOfMemory => Heard::WantOfMemory,
        Error::Io(error) => {
            if error.kind() == ErrorKind::WouldBlock {
                Heard::Quiet
            } else {
                Heard::Failed
            }
        }
        _ => Heard::Failed,
    }
}

/// A message that came, as a frame.
fn frame_of(alloc: Global, bytes: &[u8]) -> Heard {
    match Blob::copy(alloc, bytes) {
        Ok(frame) => Heard::Frame(frame),
        Err(_) => Heard::WantOfMemory,
    }
}

/// What a connection tells. A text message is a failure. A sign of life by a ping or a pong is told as the frame by which a client
/// says that it is there.
fn hear<R: Clock + RandomSource + Copy>(alloc: Global, socket: &mut Socket<R>) -> Heard {
    match next_message(socket) {
        Ok(Message::Binary(bytes)) => {
            // A view that says that it is there is no news to the others.
            let is_news = bytes.as_slice() != [ALIVE_TAG].as_slice();
            socket.get_mut().note_message(is_news);
            frame_of(alloc, bytes.as_slice())
        }
        Ok(Message::Ping(_) | Message::Pong(_)) => frame_of(alloc, &[ALIVE_TAG]),
        Ok(Message::Close(_)) => Heard::End,
        Ok(_) => Heard::Failed,
        Err(error) => heard_of(&error),
    }
}

/// A receive was quiet: a peer that is due a ping is sent one. Where that fails, the next frame that is sent fails too.
fn after_quiet<R: Clock + RandomSource + Copy>(socket: &mut Socket<R>) {
    if socket.get_mut().note_quiet() {
        let _ = socket.send(Message::Ping(Bytes::new()));
    }
}

/// Sends Close with a code where it was not sent yet (RFC 6455, 5.5.1), and nothing more.
fn say_close<R: Clock + RandomSource + Copy>(socket: &mut Socket<R>, code: CloseCode) {
    let reason = Utf8Bytes::new();
    let _ = socket.close(Some(CloseFrame { code, reason }));
    socket.get_ref().stop_sending();
}

/// A connection of which nothing more is heard, and which is told so.
fn end<R: Clock + RandomSource + Copy>(mut socket: Socket<R>, last: Last) -> Stage<R> {
    say_close(&mut socket, last.close_code());
    Stage::Over(Some(socket), last)
}

/// A connection after a receive. One that told no frame and was not quiet is over.
fn after_hearing<R: Clock + RandomSource + Copy>(socket: Socket<R>, heard: &Heard) -> Stage<R> {
    match heard {
        Heard::Frame(_) | Heard::Quiet => Stage::Open(socket),
        Heard::End => end(socket, Last::Ended),
        Heard::Failed => end(socket, Last::Failed),
        Heard::WantOfMemory => end(socket, Last::WantOfMemory),
    }
}

/// Gives a connection a frame to send, as one binary message.
fn put<R: Clock + RandomSource + Copy>(
    alloc: Global,
    socket: &mut Socket<R>,
    frame: &[u8],
) -> Result<(), LinkFault> {
    if frame.len() > LONGEST_MESSAGE {
        return Err(LinkFault::Failed);
    }
    let Ok(message) = Message::binary(alloc, frame) else {
        return Err(LinkFault::WantOfMemory);
    };
    socket.get_mut().note_frame();
    match socket.send(message) {
        Ok(()) => Ok(()),
        Err(Error::OutOfMemory) => Err(LinkFault::WantOfMemory),
        Err(_) => Err(LinkFault::Failed),
    }
}

impl<R: Clock + RandomSource + Copy> Stage<R> {
    /// Whether its handshake was not done.
    pub fn is_unshaken(&self) -> bool {
        match self {
            Stage::Accepting(_) | Stage::Connecting(_) | Stage::Over(None, _) => true,
            Stage::Open(_) | Stage::Over(Some(_), _) => false,
            Stage::Closed { is_unshaken } => *is_unshaken,
        }
    }

    /// Goes on with a handshake, as far as the peer's bytes reach.
    fn shake_hands(self, alloc: Global) -> Stage<R> {
        match self {
            Stage::Accepting(handshake) => continue_accepting(alloc, handshake),
            Stage::Connecting(handshake) => continue_connecting(handshake),
            other => other,
        }
    }

    /// The same, until the handshake is finished or has taken the time of a send.
    fn shake_hands_in_time(self, alloc: Global) -> Stage<R> {
        let mut stage = self;
        for _ in 0..SEND_TRIES {
            if !matches!(&stage, Stage::Accepting(_) | Stage::Connecting(_)) {
                break;
            }
            stage = stage.shake_hands(alloc);
        }
        stage
    }

    /// What comes next, and how far the link is then.
    pub fn recv(self, alloc: Global) -> (Stage<R>, Heard) {
        match self.shake_hands(alloc) {
            Stage::Open(mut socket) => {
                let heard = hear(alloc, &mut socket);
                if matches!(&heard, Heard::Quiet) {
                    after_quiet(&mut socket);
                }
                let stage = after_hearing(socket, &heard);
                (stage, heard)
            }
            Stage::Over(socket, last) => {
                let heard = match last {
                    Last::Ended => Heard::End,
                    Last::Failed => Heard::Failed,
                    Last::WantOfMemory => Heard::WantOfMemory,
                };
                (Stage::Over(socket, last), heard)
            }
            Stage::Closed { is_unshaken } => (Stage::Closed { is_unshaken }, Heard::End),
            stage => (stage, Heard::Quiet),
        }
    }

    /// Sends a frame. Where it fails, the link is over.
    pub fn send(self, alloc: Global, frame: &[u8]) -> (Stage<R>, Result<(), LinkFault>) {
        match self.shake_hands_in_time(alloc) {
            Stage::Open(mut socket) => {
                let sent = put(alloc, &mut socket, frame);
                if sent == Err(LinkFault::Failed) {
                    return (end(socket, Last::Failed), sent);
                }
                (Stage::Open(socket), sent)
            }
            Stage::Over(socket, Last::WantOfMemory) => {
                (
                    Stage::Over(socket, Last::WantOfMemory),
                    Err(LinkFault::WantOfMemory),
                )
            }
            Stage::Over(socket, Last::Ended | Last::Failed) => {
                (Stage::Over(socket, Last::Failed), Err(LinkFault::Failed))
            }
            Stage::Closed { is_unshaken } => {
                (Stage::Closed { is_unshaken }, Err(LinkFault::Failed))
            }
            Stage::Accepting(_) | Stage::Connecting(_) => {
                (Stage::Over(None, Last::Failed), Err(LinkFault::Failed))
            }
        }
    }

    /// Closes in good manners: sends Close, stops sending, reads on for a while, and lets go of the connection. Links that are closed in a
    /// row since some time share that while.
    pub fn close(self, since: Option<Instant>) -> Stage<R> {
        let is_unshaken = self.is_unshaken();
        match self {
            Stage::Accepting(mut handshake) => {
                handshake.get_ref().stop_sending();
                handshake.get_mut().read_on(since);
            }
            Stage::Connecting(mut handshake) => {
                handshake.get_ref().stop_sending();
                handshake.get_mut().read_on(since);
            }
            Stage::Open(mut socket) => {
                socket.get_mut().hurry(since);
                say_close(&mut socket, CloseCode::Normal);
                socket.get_mut().read_on(since);
            }
            Stage::Over(Some(mut socket), _) => socket.get_mut().read_on(since),
            Stage::Over(None, _) | Stage::Closed { .. } => {}
        }
        Stage::Closed { is_unshaken }
    }
}
