// Why the program did not do what it was asked to.
ghost use Rattle.std.specs.Prelude.{◌≡◌, MatchResult, OnErr, OnOk};
ghost use Rattle.console.specs.declared.failure.Failure.TheVariants.{Memory, Message};

use std::alloc::{AllocError, AllocFailed};
use std::error::Error;
use std::process::ExitCode;
use std::{fmt, io};

#[derive(Debug, Drop)]
pub enum Failure {
    Memory,
    System(io::Error),
    Message(String),
}

impl Failure {
    // The failure with a message, or the lack of memory that kept the message from being written.
    pub fn told(message: Result<String, AllocError>) -> Failure
        ensures { MatchResult message (λ text. result ≡ Message text) (λ _. result ≡ Memory) }
    {
        message.map_or(Failure::Memory, Failure::Message)
    }
}

impl Error for Failure {}

impl From<AllocError> for Failure {
    fn from(_e: AllocError) -> Failure {
        Failure::Memory
    }
}

impl<T: Drop> From<AllocFailed<T>> for Failure {
    fn from(_e: AllocFailed<T>) -> Failure {
        Failure::Memory
    }
}

// Text is written into memory, so nothing else makes writing it fail.
impl From<fmt::Error> for Failure {
    fn from(_e: fmt::Error) -> Failure {
        Failure::Memory
    }
}

impl From<io::Error> for Failure {
    fn from(e: io::Error) -> Failure {
        Failure::System(e)
    }
}

impl fmt::Display for Failure {
    fn fmt<W: fmt::Write>(&self, f: &mut fmt::Formatter<W>) -> fmt::Result {
        match self {
            Failure::Memory => f.write_str("out of memory"),
            Failure::System(e) => write!(f, "{e}"),
            Failure::Message(text) => write!(f, "{text}"),
        }
    }
}

// The status with which a program of this name ends. A failure is written to standard error.
pub fn status_of(rt: &impl Eprint, program: &str, end: Result<(), Failure>) -> ExitCode
    ensures done { OnOk end (result ≡ ExitCode.SUCCESS) }
    ensures failed { OnErr end (result ≡ ExitCode.FAILURE) }
{
    let Err(failure) = end else {
        return ExitCode::SUCCESS;
    };
    let _ = eprintln!(rt; "{program}: {failure}");
    ExitCode::FAILURE
}
