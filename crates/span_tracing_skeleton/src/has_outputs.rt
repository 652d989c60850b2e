//! What has outputs with settings.
ghost use Rattle.std.specs.Prelude.{◌≡◌, ℕ};
ghost use Rattle.span_tracing_skeleton.specs.Consistency.{StaysConsistent};
ghost use Rattle.span_tracing_skeleton.specs.declared.setting.Setting.{Setting};

use crate::has_registry::HasRegistry;
use crate::setting::Setting;
use tracing_core_fields::Subscriber;

/// Has outputs, each with settings that may change.
pub trait HasOutputs: HasRegistry {
    // How many outputs it has.
    ghost outputs_in: { Self → ℕ };

    // What a setting for the output at a place leaves.
    ghost set: { Self → ℕ → Setting → Self };

    /// How many outputs it has.
    fn output_count(&self) -> usize
        ensures { result ≡ outputs_in self.now };

    /// Changes a setting of the output at a place, counted from 0. Where there is no such output, nothing changes.
    fn set(&mut self, place: usize, setting: Setting)
        ensures { self.new ≡ set self.old place setting };

    // A setting leaves the spans as they are.
    ghost spans_stay: { (x : Self) (place : ℕ) (setting : Setting) →
        Self.HasRegistry.registry_of (set x place setting) ≡ Self.HasRegistry.registry_of x };

    // It stays as consistent as it was, and says the same of its interests and its hint.
    ghost word_stays: { (x : Self) (place : ℕ) (setting : Setting) →
        StaysConsistent ⟦<Self as Subscriber>⟧ x (set x place setting) };
}
