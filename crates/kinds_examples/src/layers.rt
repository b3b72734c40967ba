// First raised many times, and places of every length.
use kinds::refusal::Cause;
use kinds::roughness::Roughness;
use roughness::first::First;
use roughness::raise::Raise;

type Thrice<R> = Raise<Raise<Raise<R>>>;

fn thrice<R>(below: R) -> Thrice<R> {
    Raise {
        below: Raise {
            below: Raise { below },
        },
    }
}

fn nine_times() -> Thrice<Thrice<Thrice<First>>> {
    thrice(thrice(thrice(First)))
}

const MINUTES: [i64; 12] = [0, 1, 2, 3, 4, 5, 6, 7, 8, 9, 10, 11];

#[test]
fn nine_times_works_from_eleven(rt: HostRuntime) {
    let kind = nine_times();
    assert_eq!(rt; kind.reach(), 10);
    assert_eq!(rt; kind.growth(), 1024);
    assert_eq!(rt; kind.mark(), 266);
    let mut rows = [7];
    let short = Err(Cause::Short.into());
    assert_eq!(rt; kind.forward(&MINUTES[0..10], &[0; 10], &mut rows), short);
    assert_eq!(rt; rows[0], 7);
    assert_eq!(rt;
        kind.forward(
            &MINUTES[0..11],
            &[0, 0, 0, 0, 0, 1, 0, 0, 0, 0, 0],
            &mut rows,
        ),
        Ok(())
    );
    assert_eq!(rt; rows[0], -252);
}

#[test]
fn ten_times_is_too_steep(rt: HostRuntime) {
    let kind = Raise {
        below: nine_times(),
    };
    assert_eq!(rt; kind.reach(), 11);
    assert_eq!(rt; kind.growth(), 2001);
    let mut rows = [7];
    let steep = Err(Cause::Steep.into());
    assert_eq!(rt; kind.forward(&MINUTES, &[0; 12], &mut rows), steep);
    assert_eq!(rt; rows[0], 7);
}

#[test]
fn a_place_as_long_as_the_rows(rt: HostRuntime) {
    let kind = Raise { below: First };
    let mut rows = [7];
    assert_eq!(rt;
        kind.forward(&MINUTES[0..3], &[100, 120, 110], &mut rows),
        Ok(())
    );
    assert_eq!(rt; rows[0], -30);
    let mut columns = [7, 7, 7, 7];
    assert_eq!(rt; kind.back(&MINUTES[0..3], &[-1], &mut columns), Ok(()));
    assert_eq!(rt; columns, [-1, 2, -1, 7]);
}
