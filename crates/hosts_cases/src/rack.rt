use exceptions::questions::{FailKind, PyIterReturn};
use hosts::host::Host;
use hosts::rack::Rack;
use std::test::Fail;

#[test]
fn a_call_falls_after_three(rt: HostRuntime) -> Result<(), Fail> {
    let mut rack = Rack::new();
    let given = [
        rack.call(13, &[])?,
        rack.call(5, &[13])?,
        rack.call(21, &[])?,
    ];
    assert_eq!(rt; given, [1, 2, 3]);
    assert_eq!(rt; rack.call(13, &[]), Err(5));
    assert_eq!(rt; rack.truth(5)?, false);
    Ok(())
}

#[test]
fn an_iterator_stops_without_a_value(rt: HostRuntime) -> Result<(), Fail> {
    let mut rack = Rack::new();
    let given = [
        rack.next(2)?,
        rack.send(10, 9)?,
        rack.next(2)?,
        rack.next(10)?,
    ];
    let first = [
        PyIterReturn::Return(1),
        PyIterReturn::Return(2),
        PyIterReturn::Return(3),
        PyIterReturn::StopIteration(None),
    ];
    assert_eq!(rt; given, first);
    let sent = [
        rack.send(2, 9)?,
        rack.send(2, 9)?,
        rack.send(2, 9)?,
        rack.send(2, 9)?,
    ];
    assert_eq!(rt; sent, first);
    Ok(())
}

#[test]
fn other_answers_are_the_first_argument(rt: HostRuntime) -> Result<(), Fail> {
    let mut rack = Rack::new();
    assert_eq!(rt; rack.enter_of(9)?, Some(9));
    assert_eq!(rt;
        [
            rack.instantiate(9)?,
            rack.fail(FailKind::NothingToReraise, 9),
        ],
        [1, 4]
    );
    assert_eq!(rt; rack.split(7), [7, 7, 7]);
    Ok(())
}
