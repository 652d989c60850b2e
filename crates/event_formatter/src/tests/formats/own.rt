use super::*;
use event_formatter_text::FormatFields;

// A format of a program's own: it writes the target of an event alone.
#[derive(Drop)]
struct Targets;

impl FormatEvent for Targets {
    ghost use Rattle.std.specs.Prelude.{◌++◌, Some, codes};

    ghost line_of = { λ format settings c e. Some (e.metadata.target ++ codes "\n") };

    fn format_event<N: FormatFields>(
        &mut self,
        _alloc: Global,
        _context: &FmtContext<'_, '_, N>,
        out: &mut String,
        _settings: Settings,
        event: &Event<'_, '_>,
    ) -> Result<(), FormatError> {
        out.push_str(event.metadata().target())?;
        out.push('\n')?;
        Ok(())
    }
}

#[test]
fn a_format_of_ones_own(rt: HostRuntime) -> Result<(), Fail> {
    let mut registry = Registry::new(rt.alloc());
    let line = line_of_m(rt.alloc(), &mut registry, &mut Targets)?;
    assert_eq!(rt; line.as_str(), "app\n");
    Ok(())
}

#[test]
fn a_default_format(rt: HostRuntime) -> Result<(), Fail> {
    let mut registry = Registry::new(rt.alloc());
    let mut format = Format::default(rt.alloc()).with_timer(fake_time(rt.alloc())?);
    let line = line_of_m(rt.alloc(), &mut registry, &mut format)?;
    assert_eq!(rt; line.as_str(), "fake time  INFO app: m\n");
    Ok(())
}
