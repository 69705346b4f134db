use power_share::Shares;

/// Two posts at fifty kilowatts settle at half each, and a third waits.
fn two_settle() -> bool {
    let mut shares = Shares::new(50_000, 3);
    shares.ask(1, 40_000);
    let alone = shares.tell(1);
    shares.ask(2, 40_000);
    let settled = [shares.tell(2), shares.tell(1), shares.tell(2)];
    let shown = shares.shown(3, 40_000);
    shares.ask(3, 40_000);
    alone == 40_000 && settled == [10_000, 25_000, 25_000] && shown == 0 && shares.tell(3) == 0
}

/// A post that is released leaves its watts to the others.
fn one_is_released() -> bool {
    let mut shares = Shares::new(u32::MAX, 8);
    shares.ask(8, u32::MAX);
    let alone = shares.tell(8);
    let shown = shares.shown(1, u32::MAX);
    shares.release(8);
    alone == u32::MAX && shown == 0 && shares.told(8) == 0 && shares.shown(1, u32::MAX) == u32::MAX
}

#[test]
fn posts_share_power(rt: HostRuntime) {
    assert!(rt; two_settle());
    assert!(rt; one_is_released());
}
