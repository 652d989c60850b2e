//! Routes of outputs.

use crate::lines::decode::members::whole_number;
use crate::lines::fault::LineFault;
use event_formatter::Route;
use serde_json::Value as Json;
use std::alloc::Global;
use tracing_core::Level;

/// A sink's place, or an object whose only key says what is done with its two parts.
#[cycle(route)]
pub(crate) fn route_of(alloc: Global, value: &Json) -> Result<Route, LineFault> {
    match value {
        Json::Number(_) => Ok(Route::Sink(whole_number(value)?)),
        Json::Object(members) if members.len() == 1 => match members.iter().next() {
            Some((word, parts)) => route_named(alloc, word.as_str(), parts),
            None => Err(LineFault::NotReadable),
        },
        _ => Err(LineFault::NotReadable),
    }
}

/// The route of that name: a level and a route, or two routes.
#[cycle(route)]
fn route_named(alloc: Global, word: &str, parts: &Json) -> Result<Route, LineFault> {
    // the list is taken apart here and not by `pair`, so that its routes are seen to lie deeper
    let Json::Array(parts) = parts else {
        return Err(LineFault::NotReadable);
    };
    let [first, second] = parts.as_slice() else {
        return Err(LineFault::NotReadable);
    };
    match word {
        "max" => Ok(Route::MaxLevel(level_of(first)?, boxed_route(alloc, second)?)),
        "min" => Ok(Route::MinLevel(level_of(first)?, boxed_route(alloc, second)?)),
        "tee" => Ok(Route::Tee(boxed_route(alloc, first)?, boxed_route(alloc, second)?)),
        "or_else" => Ok(Route::OrElse(boxed_route(alloc, first)?, boxed_route(alloc, second)?)),
        _ => Err(LineFault::NotReadable),
    }
}

#[cycle(route)]
fn boxed_route(alloc: Global, value: &Json) -> Result<Box<Route>, LineFault> {
    let route = route_of(alloc, value)?;
    Ok(Box::new(alloc, route)?)
}

fn level_of(value: &Json) -> Result<Level, LineFault> {
    let word = value.as_str().ok_or(LineFault::NotReadable)?;
    word.parse::<Level>().or(Err(LineFault::NotReadable))
}
