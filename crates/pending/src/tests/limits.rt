//! Lines of the greatest length, and which fault comes first where steps run out.
use super::reading::{Desk, bytes};
use crate::{Event, Pending};
use std::alloc::Global;
use std::test::Fail;
use tokens::{Cap, Kind, Stop};

/// A text of so many letters.
fn letters(alloc: Global, count: usize) -> Result<Vec<u8>, Fail> {
    Ok(vec![in alloc; 97; count]?)
}

/// Why a call ended the run.
fn cause(stop: &Stop) -> u8 {
    match stop {
        Stop::Spent => b's',
        Stop::Trouble(Kind::InvalidChar) => b'c',
        Stop::Capacity(Cap::Inputs) => b'i',
        Stop::Capacity(Cap::Line) => b'l',
        _ => b'?',
    }
}

/// What comes first of a first line: `t` for a token, else why the run ends; and the steps spent.
fn first_of(alloc: Global, line: Vec<u8>, steps: u64) -> (u8, u64) {
    let mut desk = Desk::new(alloc, steps);
    let mut pending = Pending::new(alloc, line);
    let came = match desk.next(&mut pending) {
        Ok(Event::Token { .. }) => b't',
        Ok(_) => b'?',
        Err(stop) => cause(&stop),
    };
    (came, desk.budget.used())
}

/// Why a file is refused behind so many open inputs, or `o`.
fn opened_behind(alloc: Global, inputs: u64, line: Vec<u8>, steps: u64) -> Result<u8, Fail> {
    let mut desk = Desk::new(alloc, steps);
    let mut pending = Pending::new(alloc, Vec::new(alloc));
    for _ in 0..inputs {
        pending.push_pseudo(Vec::new(alloc), -1)?;
    }
    Ok(match pending.push_file(line, 13, &mut desk.budget) {
        Ok(()) => b'o',
        Err(stop) => cause(&stop),
    })
}

#[test]
fn a_line_of_65536_bytes_is_refused_where_a_step_is_left(rt: HostRuntime) -> Result<(), Fail> {
    for (count, steps, came) in [
        (65535, 2, (b't', 2)),
        (65536, 2, (b'l', 0)),
        (65536, 0, (b's', 0)),
    ] {
        let line = letters(rt.alloc(), count)?;
        assert_eq!(rt; first_of(rt.alloc(), line, steps), came);
    }
    Ok(())
}

#[test]
fn a_byte_of_category_15_is_told_where_a_step_is_left(rt: HostRuntime) -> Result<(), Fail> {
    // the first step is the line's
    for (steps, came) in [(0, (b's', 0)), (1, (b's', 1)), (2, (b'c', 1))] {
        let line = bytes(rt.alloc(), "\x7f")?;
        assert_eq!(rt; first_of(rt.alloc(), line, steps), came);
    }
    Ok(())
}

#[test]
fn a_file_is_refused_for_inputs_then_steps_then_its_line(rt: HostRuntime) -> Result<(), Fail> {
    for (inputs, count, steps, cause) in [
        (15, 65536, 0, b'i'),
        (14, 65536, 0, b's'),
        (14, 65536, 1, b'l'),
        (14, 65535, 1, b'o'),
    ] {
        let line = letters(rt.alloc(), count)?;
        assert_eq!(rt; opened_behind(rt.alloc(), inputs, line, steps)?, cause);
    }
    Ok(())
}
