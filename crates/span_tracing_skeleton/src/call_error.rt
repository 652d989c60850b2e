//! Why a call did nothing.
use crate::refusal::Refusal;
use thiserror::Error;

/// Why a call did nothing, as a result tells it.
#[derive(Clone, Copy, Debug, PartialEq, Eq, Error)]
pub enum CallError {
    /// The trace refused the call.
    #[error("{0}")]
    Refused(Refusal),
    /// The callsite has no field of this name.
    #[error("the callsite has no field `{0}`")]
    NoField(&'static str),
}

impl From<Refusal> for CallError {
    ghost use Rattle.std.specs.Prelude.{◌≡◌};
    ghost use Rattle.span_tracing_skeleton.specs.declared.call_error.CallError.TheVariants.{Refused};

    ghost from_gives = { λ refusal error. error ≡ Refused refusal };

    fn from(refusal: Refusal) -> CallError {
        CallError::Refused(refusal)
    }
}
