//! Takes orders, each in a span, and looks for their prices in spans inside these. All is logged as text, and what the shop itself tells
//! also as JSON. It prints both files.
use crate::shown::Shown;
use span_tracing::value::Lend;
use span_tracing::{
    CallError, Clock, DiskFolder, FileStack, FixedClock, LineSettings, Moment, OpenStackError,
    OutputKey, Site, SpanName, Trace, daily_output, event, open_trace, record, span,
};
use std::fs;
use tracing_core::Level;

/// A trace whose outputs stand under the program's own filter and write to files in directories.
type OrderTrace = Trace<FileStack<Shown, DiskFolder<HostRuntime>>>;

/// The callsites of the program.
#[derive(Clone, Copy, Debug)]
struct Sites {
    /// Spans of orders, whose price is recorded later.
    order: Site,
    /// Spans of looks for a price.
    look: Site,
    /// Events: a price was found.
    found: Site,
    /// Events of the shop: an order was taken.
    taken: Site,
}

/// A shop: its trace, its clock and its callsites.
#[derive(Drop)]
struct Shop<C> {
    trace: OrderTrace,
    clock: C,
    sites: Sites,
}

/// Why an order isn't taken.
#[derive(Clone, Copy, Debug, PartialEq, Eq)]
enum OrderError {
    /// The shop has no such thing.
    NotSold,
    /// The trace refused to log.
    Log(CallError),
}

impl From<CallError> for OrderError {
    fn from(error: CallError) -> OrderError {
        OrderError::Log(error)
    }
}

/// The price of a thing in cents.
fn price_of(thing: &str) -> Option<u64> {
    match thing {
        "tea" => Some(350),
        "bread" => Some(420),
        _ => None,
    }
}

impl<C: Clock> Shop<C> {
    /// Takes an order in a span of its own, and answers the price in cents.
    fn take(&mut self, number: u64, thing: &str) -> Result<u64, OrderError> {
        let now = self.clock.now();
        let order = span!(
            self.trace,
            0,
            now,
            self.sites.order,
            number = number,
            thing = thing
        )?;
        self.trace.enter(0, now, order).done()?;
        let taken = self.take_inside(order, thing);
        self.trace.exit(0, now, order).done()?;
        self.trace.try_close(0, now, order).done()?;
        taken
    }

    /// What is done inside an order's span, whose price is recorded once it is known.
    fn take_inside(&mut self, order: Option<SpanName>, thing: &str) -> Result<u64, OrderError> {
        let cents = self.look(thing)?;
        let now = self.clock.now();
        record!(self.trace, 0, now, self.sites.order, order, cents = cents)?;
        event!(
            self.trace,
            0,
            now,
            self.sites.taken,
            message = "taken",
            user = "ada"
        )?;
        Ok(cents)
    }

    /// Looks for a price, in a span inside the order's.
    fn look(&mut self, thing: &str) -> Result<u64, OrderError> {
        let now = self.clock.now();
        let look = span!(self.trace, 0, now, self.sites.look, thing = thing)?;
        self.trace.enter(0, now, look).done()?;
        let price = price_of(thing);
        let told = event!(
            self.trace,
            0,
            now,
            self.sites.found,
            message = "looked",
            cents = price
        );
        self.trace.exit(0, now, look).done()?;
        self.trace.try_close(0, now, look).done()?;
        told?;
        price.ok_or(OrderError::NotSold)
    }
}

/// A trace with one lane and two outputs, each in files `shop.DAY` of a directory.
fn open(rt: &HostRuntime, now: Moment) -> Result<OrderTrace, OpenStackError> {
    let (text, json) = (LineSettings::full(), LineSettings::json());
    let info = daily_output(*rt, OutputKey(1), Shown::Info, text, "shop/text", "shop")?;
    let audit = daily_output(*rt, OutputKey(2), Shown::Shop, json, "shop/audit", "shop")?;
    open_trace(rt.alloc(), vec![in rt.alloc(); info, audit]?, now)
}

/// Registers the callsites.
fn register(trace: &mut OrderTrace) -> Result<Sites, OpenStackError> {
    Ok(Sites {
        order: Site::span(
            trace,
            "shop",
            "order",
            Level::INFO,
            &["number", "thing", "cents"],
        )?,
        look: Site::span(trace, "prices", "look", Level::INFO, &["thing"])?,
        found: Site::event(trace, "prices", "found", Level::INFO, &["message", "cents"])?,
        taken: Site::event(trace, "shop", "taken", Level::INFO, &["message", "user"])?,
    })
}

/// A shop with its trace and callsites, whose clock stands at the moment.
fn open_shop(rt: &HostRuntime) -> Result<Shop<FixedClock>, OpenStackError> {
    let now = Moment {
        seconds: 1_739_786_460,
        nanoseconds: 0,
    };
    let mut trace = open(rt, now)?;
    let sites = register(&mut trace)?;
    let clock = FixedClock::new(now);
    Ok(Shop {
        trace,
        clock,
        sites,
    })
}

/// Prints a file under its path.
fn print_file(rt: &HostRuntime, path: &str) -> Result<(), std::io::Error> {
    let text = fs::read_to_string(rt, path)?;
    println!(rt; "{path}:\n{text}")
}

/// Takes three orders, and answers whether all went as it has to.
fn take_all(rt: &HostRuntime) -> Result<bool, OpenStackError> {
    let mut shop = open_shop(rt)?;
    let tea = shop.take(1, "tea");
    let soap = shop.take(2, "soap");
    let bread = shop.take(3, "bread");
    Ok(tea == Ok(350) && soap == Err(OrderError::NotSold) && bread == Ok(420))
}

/// Takes the orders, prints the files, and answers whether all went as it has to.
pub(crate) fn run(rt: &HostRuntime) -> bool {
    take_all(rt) == Ok(true)
        && print_file(rt, "shop/text/shop.2025-02-17").is_ok()
        && print_file(rt, "shop/audit/shop.2025-02-17").is_ok()
}
