//! What goes between threads: a door may move to one, and a link as well.

use crate::tcp_door::TcpDoor;
use crate::tcp_link::TcpLink;
use std::net::{Net, TcpListener, TcpStream};

fn moves<T: Send>(value: T) -> T {
    value
}

fn door_moves<R: Net<Listener = TcpListener, Stream = TcpStream> + Sync>(
    door: TcpDoor<'_, R>,
) -> TcpDoor<'_, R> {
    moves(door)
}

fn link_moves(link: TcpLink<TcpStream>) -> TcpLink<TcpStream> {
    moves(link)
}
