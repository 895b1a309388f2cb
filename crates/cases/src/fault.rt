// Why a line of the script is not obeyed.
use arrayvec::CapacityError;
use std::io;
use std::num::TryFromIntError;

#[derive(Debug, Drop)]
pub enum Fault {
    // The line is no command, or a number in it is too great.
    NotACommand,
    // A line can't be printed.
    Io(io::Error),
}

impl<T: Drop> From<CapacityError<T>> for Fault {
    fn from(_error: CapacityError<T>) -> Fault {
        Fault::NotACommand
    }
}

impl From<TryFromIntError> for Fault {
    fn from(_error: TryFromIntError) -> Fault {
        Fault::NotACommand
    }
}

impl From<io::Error> for Fault {
    fn from(error: io::Error) -> Fault {
        Fault::Io(error)
    }
}
