//! The sinks of a stack's outputs.
ghost use Rattle.std.specs.Prelude.{◌≡◌, length};
ghost use Rattle.span_tracing_outputs.specs.SinkLines.{some_hold};

use crate::sink::{LineSink, some_hold};
use std::marker::Model;

/// The sinks of a stack's outputs, each at the place of its output. It knows whether a line is held beside a queue of one of them, so that
/// a request needn't look at each.
///
/// A contract sees the list of sinks.
pub(crate) struct OutputSinks<S: LineSink> {
    pub(crate) sinks: Vec<S>,
    pub(crate) holding: bool,
}

impl<S: LineSink> Model for OutputSinks<S> {
    ghost use Rattle.std.specs.Prelude.{◌≡◌, List};
    ghost use Rattle.span_tracing_outputs.specs.SinkLines.{some_hold};

    ghost Value = { List S };

    ghost view = { λ o. o.sinks.items };

    ghost invariant = { λ o. o.holding ≡ some_hold S.holds o.sinks.items };
}

/// It is written down, so that whoever lets sinks go needs no proof of his own for each of its parts.
impl<S: LineSink> Drop for OutputSinks<S> {
    fn drop(self) {
        let OutputSinks {
            sinks: _sinks,
            holding: _holding,
        } = self;
    }
}

impl<S: LineSink> OutputSinks<S> {
    pub(crate) fn new(sinks: Vec<S>) -> OutputSinks<S>
        ensures { result ≡ sinks.items }
    {
        let holding = some_hold(sinks.as_slice());
        OutputSinks { sinks, holding }
    }

    pub(crate) fn len(&self) -> usize
        ensures { result ≡ length self.now }
    {
        self.sinks.len()
    }

    pub(crate) fn as_slice(&self) -> &[S]
        ensures { result.now ≡ self.now }
    {
        self.sinks.as_slice()
    }

    /// Whether a line is held beside a queue of one of them.
    pub(crate) fn is_holding(&self) -> bool
        ensures { result ≡ some_hold S.holds self.now }
    {
        self.holding
    }
}
