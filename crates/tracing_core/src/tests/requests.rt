use tracing_core_fields::Interest;

#[test]
fn interests_have_one_answer(rt: HostRuntime) {
    let never = Interest::never();
    let sometimes = Interest::sometimes();
    let always = Interest::always();
    assert!(rt; never.is_never() && !never.is_sometimes() && !never.is_always());
    assert!(rt; !sometimes.is_never() && sometimes.is_sometimes() && !sometimes.is_always());
    assert!(rt; !always.is_never() && !always.is_sometimes() && always.is_always());
    assert_eq!(rt; never.common(always), sometimes);
    assert_eq!(rt; always.common(always), always);
}
