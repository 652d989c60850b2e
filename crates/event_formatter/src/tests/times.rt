//! The texts of moments, of durations and of threads.
use event_formatter_lines::*;
use event_formatter_text::FormatError;
use std::alloc::Global;
use std::test::Fail;

fn moment(alloc: Global, seconds: i64, nanoseconds: u32) -> Result<String, FormatError> {
    DateTime {
        seconds,
        nanoseconds,
    }
    .text(alloc)
}

#[test]
fn moments(rt: HostRuntime) -> Result<(), Fail> {
    let before = moment(rt.alloc(), -1, 1_000)?;
    assert_eq!(rt; before.as_str(), "1969-12-31T23:59:59.000001Z");
    let first = moment(rt.alloc(), -62_167_219_200, 0)?;
    assert_eq!(rt; first.as_str(), "0000-01-01T00:00:00.000000Z");
    let last = moment(rt.alloc(), 253_402_300_799, 999_999_999)?;
    assert_eq!(rt; last.as_str(), "9999-12-31T23:59:59.999999Z");
    Ok(())
}

#[test]
fn moments_without_a_text(rt: HostRuntime) {
    let failed = Some(FormatError::Failed);
    assert!(rt; moment(rt.alloc(), -62_167_219_201, 0).err() == failed);
    assert!(rt; moment(rt.alloc(), 253_402_300_800, 0).err() == failed);
    assert!(rt; moment(rt.alloc(), 0, 1_000_000_000).err() == failed);
    assert!(rt; moment(rt.alloc(), i64::MIN, 0).err() == failed);
}

#[test]
fn a_timer_goes_on_and_back(rt: HostRuntime) -> Result<(), Fail> {
    let mut timer = SystemTime::new();
    let mut out = String::new(rt.alloc());
    for (seconds, nanoseconds) in [
        (1_739_786_460, 5_000),
        (1_739_786_460, 999_999),
        (1_739_786_459, 0),
    ] {
        timer.format_time(rt.alloc(), &mut out, seconds, nanoseconds)?;
        out.push(' ')?;
    }
    assert_eq!(rt;
        out.as_str(),
        "2025-02-17T10:01:00.000005Z 2025-02-17T10:01:00.000999Z 2025-02-17T10:00:59.000000Z "
    );
    Ok(())
}

#[test]
fn other_timers(rt: HostRuntime) -> Result<(), Fail> {
    let mut out = String::new(rt.alloc());
    let mut uptime = Uptime::new(100, 500_000_000);
    uptime.format_time(rt.alloc(), &mut out, 112, 0)?;
    uptime.format_time(rt.alloc(), &mut out, 99, 0)?;
    uptime.format_time(rt.alloc(), &mut out, 12_445, 500_000_001)?;
    assert_eq!(rt;
        out.as_str(),
        "  11.500000000s   0.000000000s12345.000000001s"
    );
    let mut out = String::new(rt.alloc());
    let mut fixed = FixedText::new(String::from_str(rt.alloc(), "fake time")?);
    fixed.format_time(rt.alloc(), &mut out, 0, 0)?;
    assert_eq!(rt; out.as_str(), "fake time");
    Ok(())
}

#[test]
fn durations(rt: HostRuntime) -> Result<(), Fail> {
    for (ns, text) in [
        (0, "0.00ns"),
        (9, "9.00ns"),
        (999, "999ns"),
        (9_995, "10.00µs"),
        (9_985, "9.98µs"),
        (15_000, "15.0µs"),
        (99_950, "100.0µs"),
        (999_500, "1000µs"),
        (2_000_000, "2.00ms"),
        (1_015_000, "1.02ms"),
        (1_000_500_000_000, "1000s"),
        (1_001_500_000_000, "1002s"),
        (u128::MAX, "340282366920938463463374607432s"),
    ] {
        let mut out = String::new(rt.alloc());
        push_duration(&mut out, ns)?;
        assert_eq!(rt; out.as_str(), text);
    }
    Ok(())
}

#[test]
fn busy_and_idle(rt: HostRuntime) {
    let made = timings_at_start(10, 0);
    let entered = timings_after_enter(&made, 10, 1_000_000);
    let left = timings_after_exit(&entered, 10, 3_000_000);
    let closed = timings_after_close(&left, 10, 3_015_000);
    assert!(rt; closed.busy == 2_000_000 && closed.idle == 1_015_000);
    let back = timings_after_close(&closed, 9, 0);
    assert!(rt; back.busy == 2_000_000 && back.idle == 1_015_000 && back.last_seconds == 9);
    let extra = timings_after_exit(&left, 11, 0);
    assert!(rt; extra.depth == 0);
}

#[test]
fn threads(rt: HostRuntime) -> Result<(), Fail> {
    let mut out = String::new(rt.alloc());
    push_thread_id(&mut out, 1, true)?;
    push_thread_id(&mut out, 1, false)?;
    push_thread_id(&mut out, 10, true)?;
    push_thread_name(&mut out, "é", 4)?;
    push_thread_name(&mut out, "main", 2)?;
    assert_eq!(rt; out.as_str(), "ThreadId(01)ThreadId(1)ThreadId(10)   émain");
    Ok(())
}

// A timer of a program's own: it writes the second alone.
#[derive(Drop)]
struct Seconds;

impl FormatTime for Seconds {
    ghost use Rattle.std.specs.Prelude.{Some};
    ghost use Rattle.std.specs.Fmt.{signed_decimal};

    ghost text_at = { λ timer s n. Some (signed_decimal s) };

    fn format_time(
        &mut self,
        _alloc: Global,
        out: &mut String,
        seconds: i64,
        _nanoseconds: u32,
    ) -> Result<(), FormatError> {
        write!(out, "{seconds}")?;
        Ok(())
    }
}

#[test]
fn a_timer_of_ones_own(rt: HostRuntime) -> Result<(), Fail> {
    let mut out = String::new(rt.alloc());
    Seconds.format_time(rt.alloc(), &mut out, -7, 5)?;
    assert_eq!(rt; out.as_str(), "-7");
    Ok(())
}
