// Examples of lines and figures, as tests: each line of the grammar once as it should be, and the ways in which it fails.
#![tactic(auto)]

#[cfg(test)]
mod tests {
    use words::figures::figure;
    use words::grammar::{Line, read_line};
    use words::spellings::{PenaltyWord, RoughnessWord, penalty, roughness};

    #[test]
    fn figures(rt: HostRuntime) {
        assert_eq!(rt; figure(b"0"), Some(0));
        assert_eq!(rt; figure(b"-0"), Some(0));
        assert_eq!(rt; figure(b"-007"), Some(-7));
        assert_eq!(rt; figure(b"0000000000000000000000000000000012"), Some(12));
        assert_eq!(rt; figure(b"9223372036854775807"), Some(i64::MAX));
        assert_eq!(rt; figure(b"-9223372036854775808"), Some(i64::MIN));
    }

    #[test]
    fn no_figures(rt: HostRuntime) {
        assert_eq!(rt; figure(b""), None);
        assert_eq!(rt; figure(b"-"), None);
        assert_eq!(rt; figure(b"+1"), None);
        assert_eq!(rt; figure(b"1_0"), None);
        assert_eq!(rt; figure(b"--1"), None);
        assert_eq!(rt; figure(b"9223372036854775808"), None);
        assert_eq!(rt; figure(b"-9223372036854775809"), None);
        assert_eq!(rt; figure(b"99999999999999999999999999"), None);
    }

    #[test]
    fn kinds_by_name(rt: HostRuntime) {
        assert_eq!(rt; roughness(b"first+3"), Some(RoughnessWord::First(3)));
        assert_eq!(rt; roughness(b"slope+2"), Some(RoughnessWord::Slope(2)));
        assert_eq!(rt; roughness(b"slope+3"), None);
        assert_eq!(rt; penalty(b"absolute"), Some(PenaltyWord::Absolute));
        assert_eq!(rt;
            penalty(b"lopsided:-5:1000"),
            Some(PenaltyWord::Lopsided {
                rise: -5,
                fall: 1000,
            })
        );
        assert_eq!(rt; penalty(b"lopsided:1"), None);
        assert_eq!(rt; penalty(b"lopsided::1:2"), None);
        assert_eq!(rt; penalty(b"lopsided:1:2:"), None);
    }

    #[test]
    fn short_lines(rt: HostRuntime) {
        let mut place = [7, 7];
        assert_eq!(rt; read_line(b"", &mut place), Line::Blank);
        assert_eq!(rt; read_line(b" \t\r", &mut place), Line::Blank);
        assert_eq!(rt; read_line(b"  # set 1 2", &mut place), Line::Blank);
        assert_eq!(rt;
            read_line(b"set  1\t2\r", &mut place),
            Line::Set {
                stiffness: 1,
                allowance: 2,
            }
        );
        assert_eq!(rt; read_line(b"set 1", &mut place), Line::Unknown);
        assert_eq!(rt; read_line(b"set 1 2 # no", &mut place), Line::Unknown);
        assert_eq!(rt;
            read_line(b"note 1 -2 3", &mut place),
            Line::Note {
                minute: 1,
                crude: -2,
                weight: 3,
            }
        );
        assert_eq!(rt; read_line(b"Note 1 -2 3", &mut place), Line::Unknown);
        assert_eq!(rt; place, [7, 7]);
    }

    #[test]
    fn kinds_line(rt: HostRuntime) {
        let mut place = [7];
        let kinds = Line::Kinds {
            roughness: RoughnessWord::Slope(1),
            misfit: PenaltyWord::Absolute,
            bend: PenaltyWord::Lopsided { rise: 3, fall: 4 },
        };
        assert_eq!(rt;
            read_line(b"kinds slope+1 absolute lopsided:3:4", &mut place),
            kinds
        );
        assert_eq!(rt;
            read_line(b"kinds slope+1 absolute", &mut place),
            Line::Unknown
        );
        assert_eq!(rt;
            read_line(b"kinds absolute slope+1 absolute", &mut place),
            Line::Unknown
        );
        assert_eq!(rt; place, [7]);
    }

    #[test]
    fn listed_figures(rt: HostRuntime) {
        let mut place = [7, 7, 7];
        assert_eq!(rt; read_line(b"table", &mut place), Line::Table { count: 0 });
        assert_eq!(rt; read_line(b"table 1 2 x", &mut place), Line::Unknown);
        assert_eq!(rt; read_line(b"multipliers", &mut place), Line::Unknown);
        assert_eq!(rt;
            read_line(b"multipliers 5", &mut place),
            Line::Multipliers {
                denominator: 5,
                count: 0,
            }
        );
        assert_eq!(rt; place, [7, 7, 7]);
        assert_eq!(rt;
            read_line(b"table 1 -2", &mut place),
            Line::Table { count: 2 }
        );
        assert_eq!(rt; place, [1, -2, 7]);
        assert_eq!(rt;
            read_line(b"multipliers 5 1 2 3 4", &mut place),
            Line::Multipliers {
                denominator: 5,
                count: 4,
            }
        );
        assert_eq!(rt; place, [1, 2, 3]);
    }
}
