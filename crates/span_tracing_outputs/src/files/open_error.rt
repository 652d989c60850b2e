//! Why a stack's files were not opened.
ghost use Rattle.std.specs.Prelude.{◌≡◌};
ghost use Rattle.span_tracing_skeleton.specs.declared.refusal.Refusal.TheVariants.{OutOfMemory};
ghost use Rattle.span_tracing_outputs.specs.files.OpenedStack.{build_refusal, of_all};
ghost use Rattle.span_tracing_outputs.specs.files.OpenRefusals.{at_output, of_sink};

use span_registry_layers_store::OutputKey;
use span_tracing_skeleton::Refusal;
use std::alloc::{AllocError, AllocFailed};
use std::error::Error;
use std::fmt;
use tracing_appender_rolling::{BuildError, InitError};

/// Why no stack was made of outputs, and at which of them. It is displayed with the output's key and the folder's fault:
/// `output 1: a folder refused to open a file: failed to create log directory: refused`.
#[derive(Clone, Copy, Debug, PartialEq, Eq)]
pub struct OpenStackError {
    /// What is told.
    pub refusal: Refusal,
    /// The key of the output that it is told of. There is none where it is told of all of them or of the moment, nor where there
    /// was no memory before the files were opened.
    pub output: Option<OutputKey>,
    /// What the folder refused, and how, where `refusal` is `FolderRefused`.
    pub fault: Option<InitError>,
}

fn build_refusal(error: BuildError) -> Refusal
    ensures { result ≡ build_refusal error }
{
    match error {
        BuildError::BadName => Refusal::BadName,
        BuildError::BadLinkName => Refusal::BadLinkName,
        BuildError::Init(_) => Refusal::FolderRefused,
        BuildError::OutOfMemory => Refusal::OutOfMemory,
    }
}

impl OpenStackError {
    /// It is told of all outputs, or of the moment.
    pub(crate) fn of_all(refusal: Refusal) -> OpenStackError
        ensures { result ≡ of_all refusal }
    {
        OpenStackError {
            refusal,
            output: None,
            fault: None,
        }
    }

    /// It is told of an output.
    pub(crate) fn at_output(key: OutputKey, refusal: Refusal) -> OpenStackError
        ensures { result ≡ at_output key refusal }
    {
        OpenStackError {
            refusal,
            output: Some(key),
            fault: None,
        }
    }

    /// The appender of a sink of an output wasn't built.
    pub(crate) fn of_sink(key: OutputKey, error: BuildError) -> OpenStackError
        ensures { result ≡ of_sink key error }
    {
        let fault = match error {
            BuildError::Init(fault) => Some(fault),
            _ => None,
        };
        OpenStackError {
            refusal: build_refusal(error),
            output: Some(key),
            fault,
        }
    }
}

impl fmt::Display for OpenStackError {
    fn fmt<W: fmt::Write>(&self, f: &mut fmt::Formatter<W>) -> Result<(), fmt::Error> {
        if let Some(key) = self.output {
            write!(f, "output {}: ", key.0)?;
        }
        write!(f, "{}", self.refusal)?;
        match self.fault {
            Some(fault) => write!(f, ": {fault}"),
            None => Ok(()),
        }
    }
}

impl Error for OpenStackError {}

/// Out of memory, of no output: for `?` in a function that sets up outputs.
impl From<AllocError> for OpenStackError {
    ghost from_gives = { λ _ told. told ≡ of_all OutOfMemory };

    fn from(_: AllocError) -> OpenStackError {
        OpenStackError::of_all(Refusal::OutOfMemory)
    }
}

/// The same behind what hands back a value that found no memory, as `Vec::push`.
impl<T: Drop> From<AllocFailed<T>> for OpenStackError {
    ghost from_gives = { λ _ told. told ≡ of_all OutOfMemory };

    fn from(_: AllocFailed<T>) -> OpenStackError {
        OpenStackError::of_all(Refusal::OutOfMemory)
    }
}

/// A refusal of no output: for `?` behind calls that register callsites or set defaults.
impl From<Refusal> for OpenStackError {
    ghost from_gives = { λ refusal told. told ≡ of_all refusal };

    fn from(refusal: Refusal) -> OpenStackError {
        OpenStackError::of_all(refusal)
    }
}
