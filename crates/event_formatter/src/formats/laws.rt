//! A law of the spans that a line shows.
ghost use Rattle.event_formatter.specs.formats.EventSpans.{IdsLeadBack};

/// The ids that [`fill_scope`](crate::formats::fill_scope) gives lead back to the spans that the event stands in. So
/// `FmtContext::parent_span` is the innermost of them, `event_scope` begins there, and `visit_spans` hands them over from
/// the root on.
pub fn ids_lead_back()
    ensures { IdsLeadBack }
{}
