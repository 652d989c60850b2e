//! The sinks of an output, and the route by which lines go to them.
ghost use Rattle.std.specs.Prelude.{◌≡◌, ◌∷◌, [], IfOk};
ghost use Rattle.span_tracing_outputs.specs.sinks.Routed.{EachFrom, RoutingGives, TakesIf, TakesSent, goes_to};
ghost use Rattle.span_tracing_outputs.specs.sinks.SinkCalls.{CallsRouted};

use crate::LineSink;
use crate::sink::{copied, some_hold};
use crate::sinks::any_sink::AnySink;
use event_formatter_text::Route;
use span_tracing_skeleton::{QueueCall, Refusal, Reply};
use std::alloc::{AllocError, Global};
use std::marker::Model;
use tracing_appender::LiveQueue;
use tracing_appender_rolling::Folder;
use tracing_core_fields::Level;
use tracing_core_moments::At;

/// The sinks of an output, and a route that says by a line's level which of them take the line. Each of these takes the whole
/// line, whatever becomes of it at another one.
///
/// A contract sees it as a `Routed`.
pub struct RoutedSinks<S> {
    route: Route,
    sinks: Vec<S>,
}

/// It is written down, so that whoever lets sinks go needs no proof of his own for each of its parts.
impl<S: Drop> Drop for RoutedSinks<S> {
    fn drop(self) {
        let RoutedSinks {
            route: _route,
            sinks: _sinks,
        } = self;
    }
}

impl<S> Model for RoutedSinks<S> {
    ghost use Rattle.std.specs.Coded.{codes};
    ghost use Rattle.std.specs.Prelude.{◌≡◌, true, length};
    ghost use Rattle.event_formatter_text.specs.makers.Routes.{is_good_route};
    ghost use Rattle.event_formatter_text.specs.contracts.makers.route.Route as route_code;
    ghost use Rattle.span_tracing_outputs.specs.sinks.Routed.{Routed};

    ghost Value = { Routed S };

    ghost coded = { Prim.hlevel (codes, route_code.the_row.coded) };

    ghost view = { λ r. record { route = r.route; sinks = r.sinks.items } };

    ghost invariant = { λ r. is_good_route (length r.sinks.items) r.route ≡ true };
}

/// A route that isn't one for these sinks, as `Route::check` says. Both are as they were.
#[derive(Drop)]
pub struct UnroutedSinks<S> {
    /// The route.
    pub route: Route,
    /// The sinks.
    pub sinks: Vec<S>,
}

/// Whether a line of the level goes to the sink with this number.
#[tactic(auto, using(crate::proofs::sinks::RoutedLines::has_sink_of_both))]
pub(crate) fn goes_to(route: &Route, level: Level, place: usize) -> bool
    ensures { result ≡ goes_to route.now level place }
{
    match route {
        Route::Sink(sink) => *sink == place,
        Route::MaxLevel(most, inner) => level <= *most && goes_to(inner, level, place),
        Route::MinLevel(least, inner) => *least <= level && goes_to(inner, level, place),
        Route::Tee(first, second) => goes_to(first, level, place) || goes_to(second, level, place),
        Route::OrElse(first, second) => {
            if first.takes(level) {
                goes_to(first, level, place)
            } else {
                goes_to(second, level, place)
            }
        }
    }
}

// The same. A route to one sink is looked at here, since most outputs have one alone.
#[inline(always)]
fn is_sent(route: &Route, level: Level, place: usize) -> bool
    ensures { result ≡ goes_to route.now level place }
{
    match route {
        Route::Sink(sink) => *sink == place,
        _ => goes_to(route, level, place),
    }
}

fn take_if<S: LineSink>(is_taken: bool, sink: &mut S, at: At, level: Level, line: &[u8])
    ensures { TakesIf S.takes is_taken sink.old at (record { level = level; bytes = line.now }) sink.new }
{
    if is_taken {
        sink.take(at, level, line);
    }
}

// Hands a line to the sinks that it goes to. It stands out of line, since most outputs have a lone sink.
#[inline(never)]
fn take_each<S: LineSink>(route: &Route, sinks: &mut [S], at: At, level: Level, line: &[u8])
    ensures { EachFrom (TakesSent S.takes route.now at (record { level = level; bytes = line.now })) 0 sinks.old sinks.new }
{
    let mut place = 0;
    for sink in sinks.iter_mut() {
        take_if(is_sent(route, level, place), sink, at, level, line);
        place += 1;
    }
}

// The same. A lone sink needs no loop.
#[inline(always)]
fn take_routed<S: LineSink>(route: &Route, sinks: &mut [S], at: At, level: Level, line: &[u8])
    ensures { EachFrom (TakesSent S.takes route.now at (record { level = level; bytes = line.now })) 0 sinks.old sinks.new }
{
    if let [only] = sinks {
        take_if(is_sent(route, level, 0), only, at, level, line);
        return;
    }
    take_each(route, sinks, copied(at), level, line);
}

impl<S: Drop> RoutedSinks<S> {
    /// Sinks with their route, in which a sink goes by its place.
    ///
    /// # Errors
    ///
    /// `UnroutedSinks` where the route isn't one for so many sinks. Both come back.
    pub fn new(route: Route, sinks: Vec<S>) -> Result<RoutedSinks<S>, UnroutedSinks<S>>
        ensures { RoutingGives route sinks.items result }
    {
        match route.check(sinks.len()) {
            Ok(()) => Ok(RoutedSinks { route, sinks }),
            Err(_) => Err(UnroutedSinks { route, sinks }),
        }
    }

    /// One sink, which takes each line.
    ///
    /// # Errors
    ///
    /// Out of memory; the sink is let go.
    pub fn single(alloc: Global, sink: S) -> Result<RoutedSinks<S>, AllocError>
        ensures { IfOk result (λ made. made ≡ record { route = Route.Sink 0; sinks = sink ∷ [] }) }
    {
        let mut sinks = Vec::new(alloc);
        sinks.push(sink)?;
        Ok(RoutedSinks {
            route: Route::Sink(0),
            sinks,
        })
    }

    /// The route.
    pub fn route(&self) -> &Route
        ensures { result.now ≡ self.now.route }
    {
        &self.route
    }

    /// The sinks, each at its number.
    pub fn sinks(&self) -> &[S]
        ensures { result.now ≡ self.now.sinks }
    {
        self.sinks.as_slice()
    }

    /// The sinks, once no more lines are taken.
    pub fn into_sinks(self) -> Vec<S>
        ensures { result.items ≡ self.sinks }
    {
        let RoutedSinks { route: _, sinks } = self;
        sinks
    }
}

impl<D: Folder, Q: LiveQueue> RoutedSinks<AnySink<D, Q>> {
    /// Does this to the queue of the sink with this number among them, as [`AnySink::drive`]. Refused where there is no such sink
    /// (`UnknownSink`).
    pub fn drive(&mut self, number: usize, call: QueueCall) -> Reply
        ensures { CallsRouted D.contents D.failed number call self.old result self.new }
    {
        if number < self.sinks.len() {
            self.sinks[number].drive(call)
        } else {
            Reply::Refused(Refusal::UnknownSink)
        }
    }
}

impl<S: LineSink> LineSink for RoutedSinks<S> {
    ghost use Rattle.span_tracing_outputs.specs.SinkLines.{some_hold};
    ghost use Rattle.span_tracing_outputs.specs.sinks.Routed.{TakesRouted};

    ghost takes = { TakesRouted S.takes };

    ghost holds = { λ o. some_hold S.holds o.sinks };

    #[inline(always)]
    fn take(&mut self, at: At, level: Level, line: &[u8]) {
        take_routed(&self.route, self.sinks.as_mut_slice(), at, level, line);
    }

    fn is_holding(&self) -> bool {
        some_hold(self.sinks.as_slice())
    }
}
