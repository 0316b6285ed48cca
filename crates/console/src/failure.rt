// Why a session ends early.
use script::unread::Unread;
use std::alloc::{AllocError, AllocFailed};
use std::{fmt, io};

#[derive(Debug, Drop)]
pub enum Failure {
    // There is no memory left.
    Memory,
    // Reading or writing failed.
    Io(io::Error),
    // A line cannot be read.
    Unread,
    // A line cannot be read, and that was written.
    Reported,
}

// By hand, since want of memory comes in four ways and its case keeps none of them; the `From` of a derive keeps what came,
// and a derive for the one case that does would be no plainer.
impl From<AllocError> for Failure {
    fn from(_e: AllocError) -> Failure {
        Failure::Memory
    }
}

impl<T: Drop> From<AllocFailed<T>> for Failure {
    fn from(_e: AllocFailed<T>) -> Failure {
        Failure::Memory
    }
}

// Writing text fails only for want of memory.
impl From<fmt::Error> for Failure {
    fn from(_e: fmt::Error) -> Failure {
        Failure::Memory
    }
}

impl From<Unread> for Failure {
    fn from(e: Unread) -> Failure {
        match e {
            Unread::Memory => Failure::Memory,
            Unread::Text => Failure::Unread,
        }
    }
}

impl From<io::Error> for Failure {
    fn from(e: io::Error) -> Failure {
        Failure::Io(e)
    }
}
