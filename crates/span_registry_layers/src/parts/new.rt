//! Making the state of a stack.
ghost use Rattle.std.specs.Prelude.{◌≡◌, ◌≤◌, ◌+◌, IfErr, IfOk, suc};
ghost use Rattle.span_registry_layers_layers.specs.FilterNumbers.{more_filters};
ghost use Rattle.span_registry_layers.specs.NewStack.{IsBare, RowOf, RowsGive, filters_in};
ghost use Rattle.span_registry_layers.specs.Stacks.{plain_stack};

use crate::interest_cache::InterestCache;
use crate::output::Output;
use crate::output_slot::OutputSlot;
use crate::parts::StackParts;
use span_registry_layers_layers::{Filter, Filtered, Layer};
use span_registry_layers_store::Registry;
use std::alloc::Global;

// The output with a filter of the registry, to which its layer is attached.
fn row_of<L: Layer, F: Filter>(
    output: Output<Filtered<L, F>>,
    registry: &mut Registry,
) -> OutputSlot<Filtered<L, F>>
    requires { registry.old.filters + suc (L.filters output.output.layer) ≤ 64 }
    ensures row { RowOf ⟦<L as Layer>⟧ registry.old output result }
    ensures registry { registry.new ≡ more_filters (suc (L.filters output.output.layer)) registry.old }
{
    let id = match registry.register_filter() {
        Ok(id) => id,
        Err(_) => unreachable!(),
    };
    let Output { key, output } = output;
    let mut output = output;
    output.inner_mut().on_layer(registry);
    OutputSlot {
        key,
        id,
        output,
        passed: false,
        told: false,
    }
}

// An output each, with a filter of the registry. Without memory the outputs come back.
fn rows_of<L: Layer, F: Filter>(
    alloc: Global,
    outputs: Vec<Output<Filtered<L, F>>>,
    registry: &mut Registry,
) -> Result<Vec<OutputSlot<Filtered<L, F>>>, Vec<Output<Filtered<L, F>>>>
    requires { registry.old.filters + filters_in ⟦<L as Layer>⟧ outputs.items ≤ 64 }
    ensures { RowsGive ⟦<L as Layer>⟧ registry.old outputs.items result registry.new }
{
    let mut rows = Vec::new(alloc);
    if rows.reserve(outputs.len()).is_err() {
        return Err(outputs);
    }
    let mut left = outputs;
    while !left.is_empty() {
        let output = left.remove(0);
        rows.push_reserved(row_of(output, registry));
    }
    Ok(rows)
}

impl<L: Layer, F: Filter> StackParts<Filtered<L, F>> {
    // The outputs over a registry without spans. Without memory they come back.
    pub(crate) fn new(
        alloc: Global,
        outputs: Vec<Output<Filtered<L, F>>>,
    ) -> Result<StackParts<Filtered<L, F>>, Vec<Output<Filtered<L, F>>>>
        requires { filters_in ⟦<L as Layer>⟧ outputs.items ≤ 64 }
        ensures ok { IfOk result (λ s. IsBare ⟦<L as Layer>⟧ outputs.items (plain_stack s)) }
        ensures err { IfErr result (λ back. back.items ≡ outputs.items) }
    {
        let mut registry = Registry::new(alloc);
        let rows = rows_of(alloc, outputs, &mut registry)?;
        Ok(StackParts {
            alloc,
            registry,
            rows,
            interest_cache: InterestCache::new(alloc),
            hint: None,
        })
    }
}
