//! The address of a socket.

use std::net::{Ipv4Addr, SocketAddr, SocketAddrV4};

/// The socket's address that a text names: a port behind `localhost`, which is 127.0.0.1, or behind the four numbers of IPv4.
/// No name is looked up.
pub fn socket_address(text: &str) -> Option<SocketAddr> {
    let address = match text.strip_prefix("localhost:") {
        Some(port) => SocketAddrV4::new(Ipv4Addr::LOCALHOST, port_of(port)?),
        None => text.parse::<SocketAddrV4>().ok()?,
    };
    Some(SocketAddr::V4(address))
}

/// The number that digits alone spell.
fn port_of(digits: &str) -> Option<u16> {
    if digits.starts_with('+') {
        return None;
    }
    digits.parse::<u16>().ok()
}
