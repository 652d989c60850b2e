//! A law of what is kept.
ghost use Rattle.event_formatter_lines.specs.slots.SpanUpdates.{RekeepingIsLocal};

/// A call on what an output keeps with a span leaves what it keeps with other spans, and what other outputs keep, and
/// what it wrote is read again.
pub fn rekeeping_is_local()
    ensures { RekeepingIsLocal }
{}
