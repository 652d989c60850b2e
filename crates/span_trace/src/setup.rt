//! The setup calls of a script, made on a new trace.

use crate::fault::{Fault, Stop};
use crate::lines::{CallsiteLine, LaneLine, Setup, StackLine};
use crate::stack::OpensStacks;
use span_tracing::{Refusal, Trace};
use span_tracing_skeleton::{HasOutputs, HasRegistry, HasSinks};
use std::alloc::{AllocError, Global};
use tracing_core::{FieldSet, Identifier, LevelFilter, Metadata, Subscriber};

/// A trace that is set up, its callsites' lines, and for each sink the name under which its files are shown, where they are in
/// memory: of the first stack's sinks in order, then of the second's, and so on.
#[derive(Drop)]
pub(crate) struct Stage<T: Subscriber> {
    pub(crate) trace: Trace<T>,
    pub(crate) callsites: Vec<CallsiteLine>,
    pub(crate) folders: Vec<Option<String>>,
    /// Filters that steps may let change places with those of outputs.
    pub(crate) shelf: Vec<LevelFilter>,
}

impl<T: Subscriber + HasRegistry + HasOutputs + HasSinks> Stage<T> {
    /// Makes the calls in order.
    ///
    /// # Errors
    ///
    /// The first refused call, by its line.
    pub(crate) fn set_up<O: OpensStacks<T>>(
        alloc: Global,
        opener: &O,
        setup: Vec<Setup>,
    ) -> Result<Stage<T>, Stop> {
        let mut stage = Stage {
            trace: Trace::new(alloc),
            callsites: Vec::new(alloc),
            folders: Vec::new(alloc),
            shelf: Vec::new(alloc),
        };
        let mut number: u64 = 0;
        for call in setup {
            number = number.saturating_add(1);
            if let Err(fault) = stage.make(alloc, opener, call) {
                return Err(Stop::Line { number, fault });
            }
        }
        Ok(stage)
    }

    fn make<O: OpensStacks<T>>(
        &mut self,
        alloc: Global,
        opener: &O,
        call: Setup,
    ) -> Result<(), Fault> {
        match call {
            Setup::Stack(line) => self.add_stack(opener, line),
            Setup::Callsite(line) => self.add_callsite(alloc, line),
            Setup::Lane(line) => self.add_lane(line).map_err(Fault::Refused),
            Setup::Shelf(filter) => Ok(self.shelf.push(filter)?),
        }
    }

    fn add_stack<O: OpensStacks<T>>(&mut self, opener: &O, line: StackLine) -> Result<(), Fault> {
        let stack = opener.open(line, &mut self.folders)?;
        match self.trace.add_stack(stack) {
            Ok(_) => Ok(()),
            Err(_) => Err(Fault::Refused(Refusal::OutOfMemory)),
        }
    }

    fn add_callsite(&mut self, alloc: Global, line: CallsiteLine) -> Result<(), Fault> {
        self.register(alloc, &line).map_err(Fault::Refused)?;
        Ok(self.callsites.push(line)?)
    }

    fn register(&mut self, alloc: Global, line: &CallsiteLine) -> Result<(), Refusal> {
        let identifier = Identifier(line.id);
        let names = names_of(alloc, line.fields.as_slice()).or(Err(Refusal::OutOfMemory))?;
        let metadata = Metadata::new(
            line.name.as_str(),
            line.target.as_str(),
            line.level,
            text_of(&line.file),
            line.line,
            None,
            FieldSet::new(names.as_slice(), identifier),
            line.kind,
        );
        match self.trace.register(identifier, &metadata) {
            Ok(_) => Ok(()),
            Err(refusal) => Err(refusal),
        }
    }

    fn add_lane(&mut self, line: LaneLine) -> Result<(), Refusal> {
        match self.trace.thread(line.name, line.thread) {
            Ok(_) => Ok(()),
            Err(_) => Err(Refusal::OutOfMemory),
        }
    }
}

fn text_of(text: &Option<String>) -> Option<&str> {
    match text {
        None => None,
        Some(owned) => Some(owned.as_str()),
    }
}

fn names_of(alloc: Global, fields: &[String]) -> Result<Vec<&str>, AllocError> {
    let mut names = Vec::new(alloc);
    for field in fields {
        names.push(field.as_str())?;
    }
    Ok(names)
}
