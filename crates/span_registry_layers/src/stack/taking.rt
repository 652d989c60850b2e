//! Taking a stack apart.
ghost use Rattle.std.specs.Iterator.{YieldsFirst};
ghost use Rattle.std.specs.Prelude.{◌≡◌, map};
ghost use Rattle.span_registry_layers.specs.TakenOutputs.{output_of, outputs_left};

use crate::output::Output;
use crate::output_slot::OutputSlot;
use crate::parts::StackParts;
use crate::stack::Stack;

/// The outputs of a stack that was given up, in order, each as it was then. It takes no memory.
#[derive(Drop)]
pub struct IntoOutputs<O> {
    rows: Vec<OutputSlot<O>>,
}

impl<O> Stack<O> {
    /// All outputs, in order, as they are now. The spans are forgotten, and nobody is told.
    pub fn into_outputs(self) -> IntoOutputs<O>
        ensures { outputs_left result ≡ map output_of self.rows }
    {
        let Stack { parts } = self;
        let StackParts { rows, .. } = parts;
        IntoOutputs { rows }
    }
}

impl<O> IntoOutputs<O> {
    // The next output, where one is left.
    fn advance(&mut self) -> Option<Output<O>>
        ensures { YieldsFirst outputs_left self.old result self.new }
    {
        if self.rows.is_empty() {
            return None;
        }
        let OutputSlot { key, output, .. } = self.rows.remove(0);
        Some(Output { key, output })
    }
}

impl<O: Drop> Iterator for IntoOutputs<O> {
    ghost use Rattle.std.specs.Iterator.{YieldsFirst, item_count};
    ghost use Rattle.span_registry_layers.specs.TakenOutputs.{outputs_left};

    type Item = Output<O>;

    ghost next_gives = { YieldsFirst outputs_left };

    ghost remaining = { item_count outputs_left };

    fn next(&mut self) -> Option<Output<O>> {
        self.advance()
    }
}
