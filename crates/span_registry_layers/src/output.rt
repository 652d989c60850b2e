//! Outputs that a stack is made of.
ghost use Rattle.std.specs.Prelude.{◌≡◌, nat_le};
ghost use Rattle.span_registry_layers_store.specs.Spans.{is_member};
ghost use Rattle.span_registry_layers.specs.NewStack.{filters_in, has_equal_keys, keys_of, new_refusal};

use span_registry_layers_layers::{Filter, Filtered, Layer};
use span_registry_layers_store::OutputKey;
use thiserror::Error;

/// An output, and its key. A layer that keeps slots with spans should write them under this key alone: where
/// each layer of a stack does, no output changes the slots of another, and `layers_keep_to_keys` says this of
/// each turn. A stack takes layers that write under other keys, too.
#[derive(Debug, Drop)]
pub struct Output<O> {
    /// The key, which no other output of the stack has.
    pub key: OutputKey,
    /// What is told, and what decides that.
    pub output: O,
}

/// Why a stack isn't made.
#[derive(Clone, Copy, Debug, PartialEq, Eq, Error)]
pub enum StackError {
    /// There was no memory for it.
    #[error("out of memory")]
    OutOfMemory,
    /// There is no output.
    #[error("a stack has at least one output")]
    NoOutput,
    /// There are more than 64 filters: each output has one, and a layer may have more.
    #[error("a stack has at most 64 filters")]
    TooManyFilters,
    /// Two outputs have the same key.
    #[error("two outputs have the same key")]
    EqualKeys,
}

/// A stack that was not made. The outputs are as they were.
#[derive(Debug, Drop, Error)]
#[error("{error}")]
pub struct StackRefusal<O> {
    /// Why it was not made.
    pub error: StackError,
    /// The outputs, in order.
    pub outputs: Vec<Output<O>>,
}

/// The stack has no output at this place.
#[derive(Clone, Copy, Debug, PartialEq, Eq, Error)]
#[error("unknown output")]
pub struct UnknownOutput(pub(crate) ());

fn has_key<O>(outputs: &[Output<O>], key: OutputKey) -> bool
    ensures { result ≡ is_member (keys_of outputs.now) key.0 }
{
    let mut rest = outputs;
    while let [first, later @ ..] = rest {
        if first.key.0 == key.0 {
            return true;
        }
        rest = later;
    }
    false
}

fn has_equal_keys<O>(outputs: &[Output<O>]) -> bool
    ensures { result ≡ has_equal_keys (keys_of outputs.now) }
{
    let mut rest = outputs;
    while let [first, later @ ..] = rest {
        if has_key(later, first.key) {
            return true;
        }
        rest = later;
    }
    false
}

// Whether a registry takes the filters of all outputs.
fn have_room<L: Layer, F: Filter>(outputs: &[Output<Filtered<L, F>>]) -> bool
    ensures { result ≡ nat_le (filters_in ⟦<L as Layer>⟧ outputs.now) 64 }
{
    let mut room = 64;
    let mut rest = outputs;
    while let [first, later @ ..] = rest {
        match first.output.room_left(room) {
            None => return false,
            Some(left) => room = left,
        }
        rest = later;
    }
    true
}

// Why no stack is made of these, where it isn't.
pub(crate) fn refusal<L: Layer, F: Filter>(outputs: &[Output<Filtered<L, F>>]) -> Option<StackError>
    ensures { result ≡ new_refusal ⟦<L as Layer>⟧ outputs.now }
{
    if outputs.is_empty() {
        Some(StackError::NoOutput)
    } else if !have_room(outputs) {
        Some(StackError::TooManyFilters)
    } else if has_equal_keys(outputs) {
        Some(StackError::EqualKeys)
    } else {
        None
    }
}
