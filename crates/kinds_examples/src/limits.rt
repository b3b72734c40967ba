// Steps of minutes, large figures, and what penalties answer at their limits.
use kinds::penalty::Penalty;
use kinds::refusal::{Cause, Refusal};
use kinds::roughness::Roughness;
use penalties::absolute::Absolute;
use penalties::lopsided::Lopsided;
use roughness::first::First;
use roughness::slope::Slope;
use std::test::Fail;

fn refused(cause: Cause) -> Result<(), Refusal> {
    Err(cause.into())
}

#[test]
fn a_step_of_sixty(rt: HostRuntime) {
    let mut rows = [7];
    assert_eq!(rt; First.forward(&[60, 120], &[5, 9], &mut rows), Ok(()));
    assert_eq!(rt; rows[0], 4);
    assert_eq!(rt;
        First.forward(&[60, 121], &[5, 9], &mut rows),
        refused(Cause::Minute)
    );
    assert_eq!(rt;
        First.forward(&[61, 62], &[5, 9], &mut rows),
        refused(Cause::Minute)
    );
    assert_eq!(rt;
        First.forward(&[60, 60], &[5, 9], &mut rows),
        refused(Cause::Minute)
    );
    assert_eq!(rt;
        First.forward(&[-1, 1], &[5, 9], &mut rows),
        refused(Cause::Minute)
    );
    assert_eq!(rt;
        First.forward(&[0, i64::MAX], &[5, 9], &mut rows),
        refused(Cause::Minute)
    );
    assert_eq!(rt; rows[0], 4);
}

#[test]
fn figures_of_any_size(rt: HostRuntime) {
    let mut rows = [7];
    let half = 500_000_000_000;
    assert_eq!(rt; First.forward(&[0, 1], &[half, -half], &mut rows), Ok(()));
    assert_eq!(rt; rows[0], -1_000_000_000_000);
    assert_eq!(rt;
        First.forward(&[0, 1], &[half + 1, 0], &mut rows),
        refused(Cause::Value)
    );
    assert_eq!(rt;
        First.forward(&[0, 1], &[i64::MIN, 0], &mut rows),
        refused(Cause::Value)
    );
    assert_eq!(rt;
        First.forward(&[0, 1], &[0], &mut rows),
        refused(Cause::Length)
    );
    assert_eq!(rt;
        First.forward(&[0, 1], &[0, 1], &mut []),
        refused(Cause::Length)
    );
    assert_eq!(rt; Slope.forward(&[0, 1, 3], &[10, 20, 30], &mut rows), Ok(()));
    assert_eq!(rt; rows[0], -10);
}

#[test]
fn penalties_at_their_limits(rt: HostRuntime) {
    assert_eq!(rt; Absolute.cost(1_000, -40_000_000), Some(40_000_000_000));
    assert_eq!(rt; Absolute.cost(1_001, 1), None);
    assert_eq!(rt; Absolute.cost(-1, 1), None);
    assert_eq!(rt; Absolute.cost(1, 40_000_001), None);
    assert_eq!(rt; Absolute.cost(1, i64::MIN), None);
    assert_eq!(rt; Absolute.allows(2, 3, -6), Some(true));
    assert_eq!(rt; Absolute.allows(2, 3, 7), Some(false));
    assert_eq!(rt; Absolute.allows(2, 0, 0), None);
    assert_eq!(rt; Absolute.allows(2, 1, 1_000_000_000_001), None);
    assert_eq!(rt; Absolute.touching_slope(2, 3, -9), Some(-6));
}

#[test]
fn lopsided_sides(rt: HostRuntime) -> Result<(), Fail> {
    let kind = Lopsided::new(3, 1)?;
    assert_eq!(rt; kind.cost(2, 4), Some(24));
    assert_eq!(rt; kind.cost(2, -4), Some(8));
    assert_eq!(rt; kind.steepness(), 3);
    assert_eq!(rt; kind.mark(), 66_305);
    assert_eq!(rt; kind.touching_slope(2, 5, 0), Some(0));
    assert_eq!(rt; kind.touching_slope(2, 5, 1), Some(30));
    assert!(rt; Lopsided::new(0, 1).is_err());
    assert!(rt; Lopsided::new(1, 101).is_err());
    assert!(rt; Lopsided::new(100, 100).is_ok());
    Ok(())
}
