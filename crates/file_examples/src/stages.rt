// The stages of a file that is being written: what each refuses, in its order.
use archive::figures::Head;
use archive::stages::{Refused, Stage, Unfinished};
use kinds::reading::Reading;
use kinds::refusal::Cause;

const HEAD: Head = Head {
    roughness: 257,
    misfit: 0,
    bend: 0,
    readings: 1,
    stiffness: 1,
    denominator: 1,
    allowance: 0,
};

const ZERO: Reading = Reading {
    minute: 0,
    crude: 0,
    weight: 0,
};

// Gives up a file that is refused: why, and how many bytes are written then.
fn given_up<S: Drop + Stage>(refused: Refused<Unfinished<S>>) -> (Cause, usize) {
    let Refused { stage, cause } = refused;
    (cause, stage.scratch())
}

// How many bytes a head is, or why it is refused and how many bytes are written then.
fn head_alone(head: Head, place: &mut [u8]) -> Result<usize, (Cause, usize)> {
    let file = Unfinished::new().head(place, head, 0).map_err(given_up)?;
    Ok(file.scratch())
}

#[test]
fn a_head_has_to_fit(rt: HostRuntime) {
    let wide = Head {
        stiffness: 65_536,
        ..HEAD
    };
    assert_eq!(rt;
        head_alone(wide, &mut [0; 10]).err(),
        Some((Cause::Value, 0))
    );
    assert_eq!(rt;
        head_alone(HEAD, &mut [0; 48]).err(),
        Some((Cause::Room, 0))
    );
    assert_eq!(rt; head_alone(HEAD, &mut [0; 49]).err(), None);
}

// Where the head says one reading: the entries cannot begin before it.
fn no_reading(place: &mut [u8]) -> Result<usize, (Cause, usize)> {
    let file = Unfinished::new().head(place, HEAD, 0).map_err(given_up)?;
    let file = file.begin_entries().map_err(given_up)?;
    Ok(file.scratch())
}

// Where the head says one reading: a second one is refused.
fn two_readings(place: &mut [u8]) -> Result<usize, (Cause, usize)> {
    let file = Unfinished::new().head(place, HEAD, 0).map_err(given_up)?;
    let file = file.reading(place, ZERO).map_err(given_up)?;
    let file = file.reading(place, ZERO).map_err(given_up)?;
    Ok(file.scratch())
}

#[test]
fn counts_are_kept(rt: HostRuntime) {
    assert_eq!(rt; no_reading(&mut [0; 49]).err(), Some((Cause::Frame, 49)));
    assert_eq!(rt; two_readings(&mut [0; 71]).err(), Some((Cause::Room, 49)));
    assert_eq!(rt; two_readings(&mut [0; 72]).err(), Some((Cause::Frame, 72)));
}
