//! Requests that read like log lines.

/// Tells an event of a [`Site`](crate::Site), in the lane's current span of the stack that the lane reaches: `event!(trace, lane, moment,
/// site, field = value, ..)`.
///
/// Each field of the site may be given a value, in any order; one that is given none is left out, and one that is given two is an error of
/// the compiler. A value is anything that has [`Value`](crate::value::Value): numbers, bools, texts that are owned or lent, bytes, what
/// [`display`](crate::value::display) and [`debug`](crate::value::debug) wrote, and an `Option` of these. (A call with an `Option<&str>`
/// beside another value runs, but can't be proved.) Nothing is copied. The trait [`Lend`](crate::value::Lend) has to be imported.
///
/// The site has to be one of this trace, which nothing checks. Lines show the values in the order in which they are given.
///
/// The answer is `Ok(())`, or a [`CallError`](crate::CallError): the trace refused the event, or the site has no field of some name. Then
/// nothing was done.
///
/// Where nobody is interested in the callsite no value is computed, and the answer is `Ok(())`: no output would be told, as long as what
/// the trace keeps is right of each stack (`skipping_misses_nothing`). That the lane isn't there, that the moment is out of range
/// or that a field isn't there isn't told then.
///
/// The trace's expression is written more than once: give a variable or a field.
#[macro_export]
macro_rules! event {
    ($trace:expr, $lane:expr, $moment:expr, $site:expr $(, $($values:tt)*)?) => {
        {
            let site: $crate::Site = $site;
            if $trace.is_off(site.index) {
                Ok::<(), $crate::CallError>(())
            } else {
                let at = ($lane, $moment);
                let mark = true;
                $crate::with_values!(
                    site, mark, [], [],
                    ($trace, event, done, at.0, at.1, site.identifier, $crate::Parent::Contextual);
                    $($($values)*)?
                )
            }
        }
    };
}

/// Makes a span of a [`Site`](crate::Site) in the lane's current span, as [`event!`](crate::event) tells an event:
/// `span!(trace, lane, moment, site, field = value, ..)`.
///
/// The answer is the span's name, or `None` where it was dropped since no output wants it. All calls take a `None`, and do nothing then.
#[macro_export]
macro_rules! span {
    ($trace:expr, $lane:expr, $moment:expr, $site:expr $(, $($values:tt)*)?) => {
        {
            let site: $crate::Site = $site;
            if $trace.is_off(site.index) {
                Ok::<Option<$crate::SpanName>, $crate::CallError>(None)
            } else {
                let at = ($lane, $moment);
                let mark = true;
                $crate::with_values!(
                    site, mark, [], [],
                    ($trace, new_span, span, at.0, at.1, site.identifier, $crate::Parent::Contextual);
                    $($($values)*)?
                )
            }
        }
    };
}

/// Adds values to a span's: `record!(trace, lane, moment, site, span, field = value, ..)`. The site has to be the one that the span was made
/// of, which nothing checks. Values are given as to [`event!`](crate::event).
#[macro_export]
macro_rules! record {
    ($trace:expr, $lane:expr, $moment:expr, $site:expr, $span:expr $(, $($values:tt)*)?) => {
        {
            let site: $crate::Site = $site;
            let at = ($lane, $moment, $span);
            let mark = true;
            $crate::with_values!(site, mark, [], [], ($trace, record, done, at.0, at.1, at.2); $($($values)*)?)
        }
    };
}

/// Looks for each field of a request among its site's, and makes the request. It is a part of [`event!`](crate::event) and the others.
#[doc(hidden)]
#[macro_export]
macro_rules! with_values {
    ($site:ident, $mark:ident, [$($name:ident)*], [$($done:tt)*], ($trace:expr, $method:ident, $kind:ident, $($argument:expr),*);) => {
        {
            // No name stands twice in a pattern, so the compiler refuses a field that is given two values.
            {
                let ($($name,)*) = ($(stringify!($name),)*);
            }
            $trace.$method($($argument,)* &[$($done)*]).$kind()
        }
    };
    ($site:ident, $mark:ident, [$($name:ident)*], [$($done:tt)*], $call:tt; $field:ident = $value:literal $(, $($later:tt)*)?) => {
        match $site.field(stringify!($field)) {
            Err(error) => Err(error),
            Ok(place) => $crate::with_values!(
                $site,
                $mark,
                [$($name)* $field],
                [$($done)* $crate::value::LentValue { field: place, value: $crate::value::Literal::literal($value, &$mark) },],
                $call;
                $($($later)*)?
            ),
        }
    };
    ($site:ident, $mark:ident, [$($name:ident)*], [$($done:tt)*], $call:tt; $field:ident = $value:expr $(, $($later:tt)*)?) => {
        match $site.field(stringify!($field)) {
            Err(error) => Err(error),
            Ok(place) => $crate::with_values!(
                $site,
                $mark,
                [$($name)* $field],
                [$($done)* $crate::value::LentValue { field: place, value: ($value).lend() },],
                $call;
                $($($later)*)?
            ),
        }
    };
}
