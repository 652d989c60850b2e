//! What filters answered to a step.
ghost use Rattle.std.specs.Prelude.{◌≡◌, ◌≤◌, [], ◌∷◌, ◌++◌, ◌<◌, length, slice_get, take};

use std::marker::Model;

/// What filters answered to a step: of an event, a question and a new span what that of each output of the reached stack did of the callsite,
/// in order. It is empty where no filter was asked, and of a refused step. A contract sees it as a list.
#[derive(Debug, Drop)]
pub struct Mask {
    outputs: usize,
    passed: [bool; 64],
}

impl Model for Mask {
    ghost use Rattle.std.specs.Prelude.{Bool, List, take, ◌≤◌};

    ghost Value = { List Bool };

    ghost view = { λ m. take m.outputs m.passed };

    ghost invariant = { λ m. m.outputs ≤ 64 };
}

impl Mask {
    /// No filter was asked.
    pub fn none() -> Mask
        ensures { result ≡ [] }
    {
        Mask {
            outputs: 0,
            passed: [false; 64],
        }
    }

    /// What the filters of so many outputs answered, which stand first in the list.
    pub fn of(outputs: usize, passed: [bool; 64]) -> Mask
        requires { outputs ≤ 64 }
        ensures { result ≡ take outputs passed }
    {
        Mask { outputs, passed }
    }

    /// How many outputs were asked.
    pub fn len(&self) -> usize
        ensures len { result ≡ length self.now }
        ensures most { result ≤ 64 }
    {
        self.outputs
    }

    /// Whether the filter of an output passed, by the output's place in the stack.
    pub fn get(&self, place: usize) -> Option<bool>
        ensures { result ≡ slice_get self.now place }
    {
        if place < self.outputs {
            Some(self.passed[place])
        } else {
            None
        }
    }

    /// With one more output, behind the others.
    pub fn push(&mut self, passes: bool)
        requires { length self.old < 64 }
        ensures { self.new ≡ self.old ++ passes ∷ [] }
    {
        let Mask { outputs, passed } = self;
        passed[*outputs] = passes;
        *outputs += 1;
    }
}
