//! What goes between threads: a version may move to one, and all of them may share it.
use crate::version::Version;

fn moves<T: Send>(value: T) -> T {
    value
}

fn is_shared<T: Sync>(value: &T) -> &T {
    value
}

fn version_moves(version: Version) -> Version {
    moves(version)
}

fn version_is_shared(version: &Version) -> &Version {
    is_shared(version)
}
