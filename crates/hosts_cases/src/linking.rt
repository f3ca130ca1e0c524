use crate::echo::Echo;
use exceptions::levels::Levels;
use exceptions::linking::contextualize_exception;
use exceptions::questions::FailKind;
use exceptions::world::Exceptions;
use hosts::host::Host;
use hosts::rack::Rack;

#[test]
fn the_link_that_would_close_a_ring_is_cut(rt: HostRuntime) {
    let mut rack = Rack::new();
    let mut levels = Levels::new(8);
    let none = contextualize_exception(&mut rack, &levels, 2);
    levels.set_current(Some(1));
    let second = contextualize_exception(&mut rack, &levels, 2);
    levels.set_current(Some(2));
    let third = contextualize_exception(&mut rack, &levels, 3);
    levels.set_current(Some(3));
    let first = contextualize_exception(&mut rack, &levels, 1);
    let same = contextualize_exception(&mut rack, &levels, 3);
    assert_eq!(rt; [none, second, third, first, same], [0, 0, 1, 2, 0]);
    assert_eq!(rt;
        [rack.context(1), rack.context(2), rack.context(3)],
        [Some(3), None, Some(2)]
    );
}

#[test]
fn exceptions_too_high_are_not_linked(rt: HostRuntime) {
    let mut rack = Rack::new();
    let mut levels = Levels::new(64);
    levels.set_current(Some(8));
    assert_eq!(rt; contextualize_exception(&mut rack, &levels, 3), 0);
    levels.set_current(Some(64));
    assert_eq!(rt; [levels.current(), rack.context(3)], [Some(8), None]);
}

#[test]
fn bytes_are_linked_up_to_the_last(rt: HostRuntime) {
    let mut echo = Echo::new(255);
    let last = echo.fail(FailKind::NoEnter, 7);
    let mut levels = Levels::new(256);
    levels.set_current(Some(0));
    let second = contextualize_exception(&mut echo, &levels, last);
    levels.set_current(Some(last));
    let third = contextualize_exception(&mut echo, &levels, 3);
    levels.set_current(Some(3));
    let first = contextualize_exception(&mut echo, &levels, 0);
    assert_eq!(rt; [last, second, third, first], [255, 0, 1, 2]);
    assert_eq!(rt;
        [echo.context(0), echo.context(3), echo.context(last)],
        [Some(3), Some(255), None]
    );
}

#[test]
fn no_byte_is_256(rt: HostRuntime) {
    let mut echo = Echo::new(255);
    assert_eq!(rt;
        [echo.call(5, &[]).err(), echo.instantiate(5).ok()],
        [Some(255), Some(255)]
    );
    let mut levels = Levels::new(300);
    levels.set_current(Some(256));
    assert_eq!(rt; contextualize_exception(&mut echo, &levels, 255), 0);
    assert_eq!(rt; [levels.current(), echo.context(255)], [Some(256), None]);
}
