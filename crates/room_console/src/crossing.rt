//! What goes between threads: a console may move to one, and all of them may share the room.
use crate::console::Console;
use crate::room::Room;
use desk::{Advance, RoomName};

fn moves<T: Send>(value: T) -> T {
    value
}

fn is_shared<T: Sync>(value: &T) -> &T {
    value
}

fn console_moves<V: Advance + Send + Sync, N: RoomName + Send + Sync>(
    console: Console<V, N>,
) -> Console<V, N> {
    moves(console)
}

fn room_is_shared<V: Advance + Send + Sync, N: RoomName + Send + Sync>(
    room: &Room<V, N>,
) -> &Room<V, N> {
    is_shared(room)
}
