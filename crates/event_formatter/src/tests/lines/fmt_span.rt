use super::*;
use std::test::Fail;

// The debug text of a set.
fn shown(alloc: Global, set: FmtSpan) -> Result<String, Fail> {
    let mut out = String::new(alloc);
    write!(&mut out, "{set:?}")?;
    Ok(out)
}

#[test]
fn moments_of_the_constants(rt: HostRuntime) -> Result<(), Fail> {
    assert!(rt; FmtSpan::FULL.contains(FmtSpan::ACTIVE) && FmtSpan::FULL.contains(FmtSpan::NEW));
    assert!(rt;
        FmtSpan::ACTIVE.contains(FmtSpan::ENTER) && FmtSpan::ACTIVE.contains(FmtSpan::EXIT)
    );
    assert!(rt;
        !FmtSpan::ACTIVE.contains(FmtSpan::CLOSE) && !FmtSpan::ACTIVE.contains(FmtSpan::NEW)
    );
    assert!(rt; FmtSpan::NEW.contains(FmtSpan::NONE) && !FmtSpan::NONE.contains(FmtSpan::NEW));
    assert!(rt; !FmtSpan::ENTER.contains(FmtSpan::ACTIVE));
    Ok(())
}

#[test]
fn operators(rt: HostRuntime) -> Result<(), Fail> {
    let mut set = FmtSpan::NEW | FmtSpan::CLOSE;
    assert!(rt; set.contains(FmtSpan::CLOSE) && !set.contains(FmtSpan::ENTER));
    assert!(rt; set & FmtSpan::NEW == FmtSpan::NEW && set & FmtSpan::ACTIVE == FmtSpan::NONE);
    assert!(rt; set ^ FmtSpan::FULL == FmtSpan::ACTIVE);
    set |= FmtSpan::ACTIVE;
    assert!(rt; set == FmtSpan::FULL);
    set &= FmtSpan::ACTIVE;
    assert!(rt; set == FmtSpan::ACTIVE);
    set ^= FmtSpan::EXIT;
    assert!(rt; set == FmtSpan::ENTER);
    Ok(())
}

#[test]
fn debug_texts(rt: HostRuntime) -> Result<(), Fail> {
    let none = shown(rt.alloc(), FmtSpan::NONE)?;
    assert_eq!(rt; none.as_str(), "FmtSpan::NONE");
    let exit = shown(rt.alloc(), FmtSpan::EXIT)?;
    assert_eq!(rt; exit.as_str(), "FmtSpan::EXIT");
    let full = shown(rt.alloc(), FmtSpan::FULL)?;
    assert_eq!(rt;
        full.as_str(),
        "FmtSpan::NEW | FmtSpan::ENTER | FmtSpan::EXIT | FmtSpan::CLOSE"
    );
    Ok(())
}
