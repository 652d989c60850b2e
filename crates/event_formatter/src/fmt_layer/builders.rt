//! How a layer is made.
ghost use Rattle.std.specs.Borrow.{sem};
ghost use Rattle.std.specs.Prelude.{◌≡◌, [], ◌++◌, ◌∷◌, if◌then◌else◌};
ghost use Rattle.std.specs.Result.{is_ok};
ghost use Rattle.event_formatter.specs.fmt_layer.Builders.{IsNew, SameButLanes, with_fields};
ghost use Rattle.event_formatter.specs.fmt_layer.MakerLoan.{LendsMaker};
ghost use Rattle.event_formatter.specs.fmt_layer.Threads.{plain_lane, plain_lanes};

use crate::fmt_layer::layer::{Config, Layer, Scratch};
use crate::fmt_layer::output::Output;
use crate::fmt_layer::threads::Threads;
use crate::formats::{Format, Full};
use event_formatter_lines::{FmtSpan, SystemTime};
use event_formatter_text::{DefaultFields, Settings};
use span_registry_layers_store::OutputKey;
use std::alloc::{AllocError, Global};

impl<W> Layer<DefaultFields, Format<Full, SystemTime>, W> {
    /// A layer that hands its lines to the maker, and keeps what it knows of spans under the key, which no other output
    /// of the stack may have.
    ///
    /// It writes the full format with time, level and target, and fields as `name=value`. It writes no styles and no events
    /// of spans themselves, sanitizes messages, and tells of events that it can't format.
    pub fn new(
        alloc: Global,
        key: OutputKey,
        maker: W,
    ) -> Layer<DefaultFields, Format<Full, SystemTime>, W>
        ensures { IsNew key maker result }
    {
        Layer {
            alloc,
            config: Config {
                key,
                fields: DefaultFields,
                settings: Settings {
                    styles: false,
                    sanitizes: true,
                },
                span_events: FmtSpan::NONE,
                has_timer: true,
                log_internal_errors: true,
            },
            format: Format::new(alloc),
            threads: Threads::new(alloc),
            output: Output {
                maker,
                line: String::new(alloc),
                starved: 0,
            },
            scratch: Scratch {
                ids: Vec::new(alloc),
                busy: String::new(alloc),
                idle: String::new(alloc),
            },
        }
    }

    /// The same as [`Layer::new`].
    pub fn default(
        alloc: Global,
        key: OutputKey,
        maker: W,
    ) -> Layer<DefaultFields, Format<Full, SystemTime>, W>
        ensures { IsNew key maker result }
    {
        Layer::new(alloc, key, maker)
    }
}

impl<N: Drop, E: Drop, W: Drop> Layer<N, E, W> {
    /// With this formatter of events.
    pub fn event_format<F: Drop>(self, format: F) -> Layer<N, F, W>
        ensures format { result.format ≡ format }
        ensures rest { (result.config ≡ self.config) × (result.threads ≡ self.threads) × (result.output ≡ self.output) }
    {
        Layer {
            alloc: self.alloc,
            config: self.config,
            format,
            threads: self.threads,
            output: self.output,
            scratch: self.scratch,
        }
    }

    /// With the formatter of events that the function makes of this one's.
    pub fn map_event_format<F: Drop, M: FnOnce(E) -> F>(self, map: M) -> Layer<N, F, W>
        requires { M.pre map self.format }
        ensures format { M.post map self.format result.format }
        ensures rest { (result.config ≡ self.config) × (result.threads ≡ self.threads) × (result.output ≡ self.output) }
    {
        Layer {
            alloc: self.alloc,
            config: self.config,
            format: map(self.format),
            threads: self.threads,
            output: self.output,
            scratch: self.scratch,
        }
    }

    /// With this formatter of fields.
    pub fn fmt_fields<M: Drop>(self, fields: M) -> Layer<M, E, W>
        ensures config { result.config ≡ with_fields fields self.config }
        ensures rest { (result.format ≡ self.format) × (result.threads ≡ self.threads) × (result.output ≡ self.output) }
    {
        Layer {
            alloc: self.alloc,
            config: self.config.with_fields(fields),
            format: self.format,
            threads: self.threads,
            output: self.output,
            scratch: self.scratch,
        }
    }

    /// With the formatter of fields that the function makes of this one's.
    pub fn map_fmt_fields<M: Drop, F: FnOnce(N) -> M>(self, map: F) -> Layer<M, E, W>
        requires { F.pre map self.config.fields }
        ensures fields { F.post map self.config.fields result.config.fields }
        ensures config { result.config ≡ with_fields result.config.fields self.config }
        ensures rest { (result.format ≡ self.format) × (result.threads ≡ self.threads) × (result.output ≡ self.output) }
    {
        Layer {
            alloc: self.alloc,
            config: self.config.map_fields(map),
            format: self.format,
            threads: self.threads,
            output: self.output,
            scratch: self.scratch,
        }
    }

    /// With this maker, which takes the lines from now on.
    pub fn with_writer<V: Drop>(self, maker: V) -> Layer<N, E, V>
        ensures maker { result.output.maker ≡ maker }
        ensures starved { result.output.starved ≡ self.output.starved }
        ensures rest { (result.config ≡ self.config) × (result.format ≡ self.format) × (result.threads ≡ self.threads) }
    {
        Layer {
            alloc: self.alloc,
            config: self.config,
            format: self.format,
            threads: self.threads,
            output: self.output.with_maker(maker),
            scratch: self.scratch,
        }
    }

    /// With the maker that the function makes of this one's.
    pub fn map_writer<V: Drop, F: FnOnce(W) -> V>(self, map: F) -> Layer<N, E, V>
        requires { F.pre map self.output.maker }
        ensures maker { F.post map self.output.maker result.output.maker }
        ensures starved { result.output.starved ≡ self.output.starved }
        ensures rest { (result.config ≡ self.config) × (result.format ≡ self.format) × (result.threads ≡ self.threads) }
    {
        Layer {
            alloc: self.alloc,
            config: self.config,
            format: self.format,
            threads: self.threads,
            output: self.output.map_maker(map),
            scratch: self.scratch,
        }
    }

    /// The maker that takes the lines.
    pub fn writer(&self) -> &W
        ensures { result.now ≡ self.now.output.maker }
    {
        &self.output.maker
    }

    /// The maker that takes the lines, to be changed.
    pub fn writer_mut(&mut self) -> &mut W
        ensures lent { result.now ≡ self.old.output.maker }
        ensures* ends { sem 𝓛 (LendsMaker N.row E.row W.row self.entry result) }
    {
        self.output.maker_mut()
    }

    /// Sets whether lines, and the texts of spans that are made from now on, have styles.
    pub fn set_ansi(&mut self, ansi: bool)
        ensures { self.new ≡ record self.old {
          config = record self.old.config { settings = record self.old.config.settings { styles = ansi } };
        } }
    {
        self.config.settings.styles = ansi;
    }

    /// Sets at which moments of a span an event is written for it.
    pub fn set_span_events(&mut self, events: FmtSpan)
        ensures { self.new ≡ record self.old { config = record self.old.config { span_events = events } } }
    {
        self.config.span_events = events;
    }

    /// Sets whether lines and the texts of spans have styles.
    pub fn with_ansi(mut self, ansi: bool) -> Layer<N, E, W>
        ensures { result ≡ record self { config = record self.config { settings = record self.config.settings { styles = ansi } } } }
    {
        self.set_ansi(ansi);
        self
    }

    /// Sets whether characters that steer a terminal are written out in messages and in the texts of errors.
    pub fn with_ansi_sanitization(mut self, sanitizes: bool) -> Layer<N, E, W>
        ensures { result ≡ record self {
          config = record self.config { settings = record self.config.settings { sanitizes = sanitizes } };
        } }
    {
        self.config.settings.sanitizes = sanitizes;
        self
    }

    /// Sets at which moments of a span an event is written for it.
    pub fn with_span_events(mut self, events: FmtSpan) -> Layer<N, E, W>
        ensures { result ≡ record self { config = record self.config { span_events = events } } }
    {
        self.set_span_events(events);
        self
    }

    /// Sets whether a line tells of an event that can't be formatted.
    pub fn log_internal_errors(mut self, log_internal_errors: bool) -> Layer<N, E, W>
        ensures { result ≡ record self { config = record self.config { log_internal_errors = log_internal_errors } } }
    {
        self.config.log_internal_errors = log_internal_errors;
        self
    }

    /// How many texts of spans and lines found no memory, at most `u64::MAX`.
    pub fn starved(&self) -> u64
        ensures { result ≡ self.now.output.starved }
    {
        self.output.starved
    }

    /// Tells it the thread of the next lane: its name, where it has one, and its number. Lanes are numbered from 0. A lane
    /// that it wasn't told of has no name, and the lane's number stands for the thread's.
    ///
    /// # Errors
    ///
    /// Out of memory, which changes nothing.
    pub fn thread(&mut self, name: Option<String>, id: u64) -> Result<(), AllocError>
        ensures lanes { plain_lanes self.new.threads ≡ (if is_ok result then plain_lanes self.old.threads
            ++ (plain_lane (record { name = name; id = id }) ∷ []) else plain_lanes self.old.threads) }
        ensures rest { SameButLanes self.old self.new }
    {
        self.threads.add(name, id)
    }
}
