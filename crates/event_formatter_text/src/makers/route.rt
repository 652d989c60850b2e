//! Which sinks of an output take a line.
ghost use Rattle.std.specs.Prelude.{◌≡◌, ◌↔◌, ◌++◌, IsOk, OnOk, nat_lt, true};
ghost use Rattle.std.specs.List.{list_all};
ghost use Rattle.event_formatter_text.specs.makers.Routes.{are_apart, are_bounded, has_sink, is_bounded, is_distinct, is_good_route};
ghost use Rattle.event_formatter_text.specs.makers.Routes.{sinks_of, taken_sinks, takes};

use std::alloc::AllocError;
use thiserror::Error;
use tracing_core_fields::Level;

/// Which sinks of an output take a line, by the level of the line.
///
/// Its calls go down the route by recursion: one of some thousand levels is fine, one of a hundred thousand isn't.
#[derive(Debug, Drop)]
pub enum Route {
    /// The sink with this number.
    Sink(usize),
    /// Where the level is at most this one.
    MaxLevel(Level, Box<Route>),
    /// Where the level is at least this one.
    MinLevel(Level, Box<Route>),
    /// The first route, and then the second.
    Tee(Box<Route>, Box<Route>),
    /// The first route where the level passes its own bound, else the second. A bound deeper in the first isn't asked.
    OrElse(Box<Route>, Box<Route>),
}

/// A route names a sink that isn't there or one twice, or the first part of an `OrElse` has no bound of its own.
#[derive(Clone, Copy, Debug, PartialEq, Eq, Error)]
#[error("bad route")]
pub struct BadRoute;

impl Route {
    // Whether all its sinks have lesser numbers.
    fn is_within(&self, count: usize) -> bool
        ensures { result ≡ list_all (λ sink. nat_lt sink count) (sinks_of self.now) }
    {
        match self {
            Route::Sink(sink) => *sink < count,
            Route::MaxLevel(_, route) => route.is_within(count),
            Route::MinLevel(_, route) => route.is_within(count),
            Route::Tee(first, second) => first.is_within(count) && second.is_within(count),
            Route::OrElse(first, second) => first.is_within(count) && second.is_within(count),
        }
    }

    /// Whether a line of the level passes the route's own bound, the outermost one.
    pub fn takes(&self, level: Level) -> bool
        ensures { result ≡ takes self.now level }
    {
        match self {
            Route::MaxLevel(most, _) => level <= *most,
            Route::MinLevel(least, _) => *least <= level,
            Route::Sink(_) | Route::Tee(_, _) | Route::OrElse(_, _) => true,
        }
    }

    /// Appends the numbers of the sinks that take a line of the level, in order.
    ///
    /// # Errors
    ///
    /// Out of memory; some of them may have been appended then.
    pub fn push_taken(&self, level: Level, sinks: &mut Vec<usize>) -> Result<(), AllocError>
        ensures { OnOk result (sinks.new.items ≡ sinks.old.items ++ taken_sinks self.now level) }
    {
        match self {
            Route::Sink(sink) => sinks.push(*sink)?,
            Route::MaxLevel(most, route) => {
                if level <= *most {
                    route.push_taken(level, sinks)?;
                }
            }
            Route::MinLevel(least, route) => {
                if *least <= level {
                    route.push_taken(level, sinks)?;
                }
            }
            Route::Tee(first, second) => {
                first.push_taken(level, sinks)?;
                second.push_taken(level, sinks)?;
            }
            Route::OrElse(first, second) => {
                if first.takes(level) {
                    first.push_taken(level, sinks)?;
                } else {
                    second.push_taken(level, sinks)?;
                }
            }
        }
        Ok(())
    }

    // Whether the route has a bound of its own.
    fn is_bounded(&self) -> bool
        ensures { result ≡ is_bounded self.now }
    {
        matches!(self, Route::MaxLevel(_, _) | Route::MinLevel(_, _))
    }

    // Whether the first part of each `OrElse` has a bound of its own.
    fn are_bounded(&self) -> bool
        ensures { result ≡ are_bounded self.now }
    {
        match self {
            Route::Sink(_) => true,
            Route::MaxLevel(_, route) => route.are_bounded(),
            Route::MinLevel(_, route) => route.are_bounded(),
            Route::Tee(first, second) => first.are_bounded() && second.are_bounded(),
            Route::OrElse(first, second) => {
                first.is_bounded() && first.are_bounded() && second.are_bounded()
            }
        }
    }

    // Whether it names the sink.
    fn has_sink(&self, sink: usize) -> bool
        ensures { result ≡ has_sink sink (sinks_of self.now) }
    {
        match self {
            Route::Sink(other) => *other == sink,
            Route::MaxLevel(_, route) => route.has_sink(sink),
            Route::MinLevel(_, route) => route.has_sink(sink),
            Route::Tee(first, second) => first.has_sink(sink) || second.has_sink(sink),
            Route::OrElse(first, second) => first.has_sink(sink) || second.has_sink(sink),
        }
    }

    // Whether it names no sink that another route names.
    fn is_apart(&self, other: &Route) -> bool
        ensures { result ≡ are_apart (sinks_of self.now) (sinks_of other.now) }
    {
        match self {
            Route::Sink(sink) => !other.has_sink(*sink),
            Route::MaxLevel(_, route) => route.is_apart(other),
            Route::MinLevel(_, route) => route.is_apart(other),
            Route::Tee(first, second) => first.is_apart(other) && second.is_apart(other),
            Route::OrElse(first, second) => first.is_apart(other) && second.is_apart(other),
        }
    }

    // Whether it names no sink twice.
    #[tactic(auto, using(crate::proofs::makers::Distinct::distinct_append))]
    fn is_distinct(&self) -> bool
        ensures { result ≡ is_distinct (sinks_of self.now) }
    {
        match self {
            Route::Sink(_) => true,
            Route::MaxLevel(_, route) => route.is_distinct(),
            Route::MinLevel(_, route) => route.is_distinct(),
            Route::Tee(first, second) => {
                first.is_distinct() && second.is_distinct() && first.is_apart(second)
            }
            Route::OrElse(first, second) => {
                first.is_distinct() && second.is_distinct() && first.is_apart(second)
            }
        }
    }

    /// Whether the route is one for so many sinks.
    ///
    /// # Errors
    ///
    /// `BadRoute` where it names a sink that isn't there, or one twice, or where the first part of an `OrElse` is neither
    /// a `MaxLevel` nor a `MinLevel`.
    pub fn check(&self, count: usize) -> Result<(), BadRoute>
        ensures { IsOk result ↔ (is_good_route count self.now ≡ true) }
    {
        if self.is_within(count) && self.is_distinct() && self.are_bounded() {
            Ok(())
        } else {
            Err(BadRoute)
        }
    }
}
