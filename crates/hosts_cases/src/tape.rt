use exceptions::questions::{FailKind, PyIterReturn};
use hosts::host::Host;
use hosts::tape::Tape;
use std::test::Fail;

#[test]
fn tape_ends_inside_a_question(rt: HostRuntime) -> Result<(), Fail> {
    let mut tape = Tape::new(&[0, 7, 1, 0, 0, 9, 9, 9, 9]);
    assert_eq!(rt;
        [tape.iterate(5)?, tape.iterate(5)?, tape.value_of(5)],
        [263, 0, 0]
    );
    Ok(())
}

#[test]
fn other_kinds_are_numbers(rt: HostRuntime) -> Result<(), Fail> {
    let mut tape = Tape::new(&[3, 6, 0, 0, 0, 255, 7, 0, 0, 0, 2, 8, 0, 0, 0, 1, 9, 0, 0, 0]);
    assert_eq!(rt; tape.enter_of(5)?, Some(6));
    assert_eq!(rt;
        [tape.call(5, &[])?, tape.exit_of(5)?, tape.value_of(5)],
        [7, 8, 9]
    );
    Ok(())
}

#[test]
fn exceptions_are_taken_mod_64(rt: HostRuntime) -> Result<(), Fail> {
    let mut tape = Tape::new(&[1, 65, 0, 0, 0, 0, 130, 0, 0, 0, 0, 64, 0, 0, 0]);
    assert_eq!(rt; tape.signal(), Err(1));
    assert_eq!(rt;
        [tape.instantiate(5)?, tape.fail(FailKind::NoExit, 5)],
        [2, 0]
    );
    Ok(())
}

#[test]
fn a_stop_has_its_number_as_value(rt: HostRuntime) -> Result<(), Fail> {
    let mut tape = Tape::new(&[2, 6, 0, 0, 0, 2, 7, 0, 0, 0, 2, 8, 0, 0, 0, 0, 3, 0, 0, 0]);
    let given = [tape.next(5)?, tape.send(5, 5)?];
    assert_eq!(rt;
        given,
        [
            PyIterReturn::StopIteration(Some(6)),
            PyIterReturn::StopIteration(Some(7)),
        ]
    );
    assert_eq!(rt; tape.enter_of(5)?, None);
    tape.trace(1, 2, 3);
    assert_eq!(rt; tape.split(5), [3, 3, 3]);
    Ok(())
}
