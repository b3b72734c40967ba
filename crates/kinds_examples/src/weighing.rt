// Tables and multipliers on lent readings: what is weighed, and what is refused where.
use kinds::reading::Reading;
use kinds::refusal::{Cause, Refusal};
use objective::gap::gap_between;
use objective::trio::Kinds;
use objective::weigh::{weigh_multipliers, weigh_table};
use penalties::absolute::Absolute;
use roughness::first::First;
use roughness::raise::Raise;
use std::test::Fail;

const FIRING: [Reading; 3] = [
    Reading {
        minute: 0,
        crude: 100,
        weight: 1,
    },
    Reading {
        minute: 1,
        crude: 120,
        weight: 1,
    },
    Reading {
        minute: 2,
        crude: 110,
        weight: 1,
    },
];

fn second_order() -> Kinds<Raise<First>, Absolute, Absolute> {
    Kinds {
        roughness: Raise { below: First },
        misfit: Absolute,
        bend: Absolute,
    }
}

fn refused<T>(cause: Cause, place: usize) -> Result<T, Refusal> {
    Err(Refusal { cause, place })
}

#[test]
fn a_table_and_its_floor(rt: HostRuntime) -> Result<(), Fail> {
    let kinds = second_order();
    let mut rows = [7, 7];
    assert_eq!(rt;
        weigh_table(&kinds, 1, &FIRING, &[100, 105, 110], &mut rows),
        Ok(15)
    );
    assert_eq!(rt; rows, [0, 7]);
    let mut columns = [7, 7, 7, 7];
    assert_eq!(rt;
        weigh_multipliers(&kinds, 1, &FIRING, 2, &[-1], &mut columns),
        Ok(30)
    );
    assert_eq!(rt; columns, [-1, 2, -1, 7]);
    let gap = gap_between(16, 30, 2, 1)?;
    assert_eq!(rt; gap.scaled, 2);
    assert_eq!(rt; gap.spare, 0);
    assert!(rt; gap.within());
    Ok(())
}

#[test]
fn refusals_name_their_place(rt: HostRuntime) {
    let kinds = second_order();
    let mut place = [7];
    let mut readings = FIRING;
    readings[2].minute = 62;
    assert_eq!(rt;
        weigh_table(&kinds, 1, &readings, &[1, 2, 3], &mut place),
        refused(Cause::Minute, 2)
    );
    readings[1].weight = 101;
    assert_eq!(rt;
        weigh_table(&kinds, 1, &readings, &[], &mut place),
        refused(Cause::Figure, 1)
    );
    assert_eq!(rt;
        weigh_table(&kinds, 0, &readings, &[], &mut place),
        refused(Cause::Setting, 0)
    );
    assert_eq!(rt;
        weigh_table(&kinds, 1, &FIRING, &[1, -1, -1], &mut place),
        refused(Cause::Value, 1)
    );
    assert_eq!(rt; place[0], 7);
}

#[test]
fn the_last_reading_too_many(rt: HostRuntime) -> Result<(), Fail> {
    let kinds = second_order();
    let mut readings = [FIRING[0]; 241];
    for (k, reading) in readings.iter_mut().enumerate() {
        reading.minute = k as i64;
    }
    let table = [100; 241];
    let mut rows = [7; 241];
    assert!(rt; weigh_table(&kinds, 1, &readings[0..240], &table[0..240], &mut rows).is_ok());
    assert_eq!(rt; rows[237], 0);
    assert_eq!(rt; rows[238], 7);
    assert_eq!(rt;
        weigh_table(&kinds, 1, &readings, &table, &mut rows),
        refused(Cause::Full, 240)
    );
    Ok(())
}
