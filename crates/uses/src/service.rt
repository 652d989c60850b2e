//! A service whose functions log inside spans of their own.

use span_registry_layers::Filter;
use span_tracing::value::Lend;
use span_tracing::{CallError, Clock, FileStack, Folder, Site, Trace, event, record, span};
use std::alloc::{AllocError, Global};

/// The callsites of a service.
#[derive(Clone, Copy, Debug)]
pub struct Sites {
    /// Spans of requests, with a number and, later, a size.
    pub request: Site,
    /// Spans of looks, with a number.
    pub look: Site,
    /// Events with a message and a number.
    pub told: Site,
}

/// A service: it owns its trace, its clock and its callsites, and logs on lane 0.
#[derive(Drop)]
pub struct Service<F: Filter, D: Folder, C: Clock> {
    /// The trace.
    pub trace: Trace<FileStack<F, D>>,
    /// The clock.
    pub clock: C,
    /// The callsites.
    pub sites: Sites,
}

/// Why a request isn't served.
#[derive(Clone, Copy, Debug, PartialEq, Eq)]
pub enum ServiceError {
    /// Nothing is found under an odd number.
    NotFound,
    /// There was no memory.
    OutOfMemory,
    /// The trace refused to log.
    Log(CallError),
}

impl From<CallError> for ServiceError {
    fn from(error: CallError) -> ServiceError {
        ServiceError::Log(error)
    }
}

impl From<AllocError> for ServiceError {
    fn from(_: AllocError) -> ServiceError {
        ServiceError::OutOfMemory
    }
}

impl<F: Filter, D: Folder, C: Clock> Service<F, D, C> {
    /// Serves a request in a span of its own: once it is entered, it is left and closed whatever comes of the request.
    ///
    /// # Errors
    ///
    /// What came of the request, or else why the span wasn't left.
    pub fn serve(&mut self, alloc: Global, number: u64) -> Result<u64, ServiceError> {
        let now = self.clock.now();
        let request = span!(self.trace, 0, now, self.sites.request, number = number)?;
        self.trace.enter(0, now, request).done()?;
        let served = self.serve_inside(alloc, number);
        let size = served.ok();
        let recorded = record!(self.trace, 0, now, self.sites.request, request, size = size);
        self.trace.exit(0, now, request).done()?;
        self.trace.try_close(0, now, request).done()?;
        recorded?;
        served
    }

    // What is done inside the span: an early refusal ends it.
    fn serve_inside(&mut self, alloc: Global, number: u64) -> Result<u64, ServiceError> {
        let size = self.look(number)?;
        let text = format!(in alloc; "found {size}")?;
        let now = self.clock.now();
        event!(
            self.trace,
            0,
            now,
            self.sites.told,
            message = text,
            number = number
        )?;
        Ok(size)
    }

    // Looks for a number, in a span inside the request's.
    fn look(&mut self, number: u64) -> Result<u64, ServiceError> {
        let now = self.clock.now();
        let look = span!(self.trace, 0, now, self.sites.look, number = number)?;
        self.trace.enter(0, now, look).done()?;
        let found = if number % 2 == 0 {
            Some(number / 2)
        } else {
            None
        };
        let told = event!(
            self.trace,
            0,
            now,
            self.sites.told,
            number = found,
            message = "looked"
        );
        self.trace.exit(0, now, look).done()?;
        self.trace.try_close(0, now, look).done()?;
        told?;
        found.ok_or(ServiceError::NotFound)
    }
}
