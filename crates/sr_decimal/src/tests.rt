//! Numbers, and what is read of them.
use crate::number_front;

#[test]
fn numbers_and_what_follows(rt: HostRuntime) {
    let rows = [
        (255, "0.", Some((0, "."))),
        (255, "007", Some((0, "07"))),
        (255, "255:1", Some((255, ":1"))),
        (255, "256", None),
        (255, "2550", None),
        (9, "9/", Some((9, "/"))),
        (8, "9/", None),
        (0, "0", Some((0, ""))),
        (255, "", None),
        (255, "/1", None),
        (255, ":1", None),
        (255, " 1", None),
        (
            u64::MAX,
            "18446744073709551615 ",
            Some((18_446_744_073_709_551_615, " ")),
        ),
        (u64::MAX, "18446744073709551616", None),
    ];
    for (most, text, want) in rows {
        let want = want.map(|(number, rest): (u64, &str)| (number, rest.as_bytes()));
        assert_eq!(rt;
            number_front(most, text.as_bytes()),
            want,
            "{text} up to {most}"
        );
    }
}
