//! The whole input, as setup calls and the steps after them.

use crate::fault::{Fault, Stop};
use crate::lines::{Line, LineFault, Setup, StepLine, decode_line};
use crate::read::Input;
use std::alloc::Global;

/// What an input asks for. The setup call of line N stands at place N - 1.
#[derive(Drop)]
pub(crate) struct Script {
    pub(crate) setup: Vec<Setup>,
    pub(crate) steps: Vec<StepLine>,
}

impl Script {
    /// Reads all lines.
    ///
    /// # Errors
    ///
    /// The first line at fault. Where the end of the input was not seen, the line behind the whole ones is
    /// not readable.
    pub(crate) fn read(alloc: Global, input: &Input) -> Result<Script, Stop> {
        let mut script = Script {
            setup: Vec::new(alloc),
            steps: Vec::new(alloc),
        };
        let mut number: u64 = 0;
        if let Some(lines) = input.whole_lines() {
            for line in lines.split(|byte| *byte == b'\n') {
                number = number.saturating_add(1);
                if let Err(fault) = script.add(alloc, line) {
                    let fault = Fault::Unread(fault);
                    return Err(Stop::Line { number, fault });
                }
            }
        }
        if input.is_whole() {
            Ok(script)
        } else {
            Err(Stop::Line {
                number: number.saturating_add(1),
                fault: Fault::Unread(LineFault::NotReadable),
            })
        }
    }

    fn add(&mut self, alloc: Global, bytes: &[u8]) -> Result<(), LineFault> {
        let line = decode_line(alloc, self.setup.as_slice(), bytes)?;
        match line {
            Line::Setup(setup) => {
                if !self.steps.is_empty() {
                    return Err(LineFault::NotReadable);
                }
                self.setup.push(setup)?;
            }
            Line::Step(step) => self.steps.push(step)?,
        }
        Ok(())
    }
}
