// Lines of every kind, and what each prints.
use crate::jobs::Job;
use std::alloc::Global;
use std::test::Fail;

// What a job prints, each line with a line end.
fn output(heap: Global, lines: &[&[u8]]) -> Result<String, Fail> {
    let mut job = Job::new(heap);
    let mut out = String::new(heap);
    for (number, line) in (1u64..).zip(lines) {
        if let Some(printed) = job.line(heap, number, line)? {
            let text = printed.to_string(heap)?;
            out.push_str(text.as_str())?;
            out.push('\n')?;
        }
    }
    Ok(out)
}

#[test]
fn remarks_print_nothing(rt: HostRuntime) -> Result<(), Fail> {
    let out = output(
        rt.alloc(),
        &[b"", b" \t \r", b"# uhpc \xff\x00", b" \t#\xff"],
    )?;
    assert_eq!(rt; out.as_str(), "");
    Ok(())
}

#[test]
fn unreadable_lines_say_why(rt: HostRuntime) -> Result<(), Fail> {
    let lines: [&[u8]; 18] = [
        b"UHPC 1 2 3 4 5 6 7",
        b"\xff\xfe",
        b"uhpc",
        b"deck 4000 5.5 0.003 850 850 1",
        b"steel 29000 60 0.09 850",
        b"stress 0",
        b"uhpc 6500 20 1.0.0 0.0035 x 850 850",
        b"uhpc 6500 20 1.0 0.0035 0.0045 850.0 850",
        b"deck 4000 5.5 0.003 850 9223372036854775808",
        b"stress 0 \xff",
        b"stress - 0",
        b"stress 0 2147483648",
        b"stress 0 -2147483649",
        b"reach 0 -2147483649",
        b"reach 0",
        b"points 1",
        b"points 1 1 0 0 5",
        b"points 1 1 0 0 5 x",
    ];
    let out = output(rt.alloc(), &lines)?;
    let want = "E 1 no such command
E 2 no such command
E 3 expected uhpc MODULUS STRENGTH CRACKING ULTIMATE LOCALIZATION ALPHA GAMMA
E 4 expected deck MODULUS STRENGTH ULTIMATE ALPHA GAMMA
E 5 expected steel MODULUS YIELD RUPTURE ALPHA GAMMA
E 6 expected stress NUMBER STRAIN
E 7 place 2 is not a number
E 8 place 5 is not a whole number of 64 bits
E 9 place 4 is not a whole number of 64 bits
E 10 place 1 is not a whole number of 64 bits
E 11 place 0 is not a whole number of 64 bits
E 12 place 1 is not a whole number of 32 bits
E 13 place 1 is not a whole number of 32 bits
E 14 place 1 is not a whole number of 32 bits
E 15 expected reach NUMBER STRESS
E 16 expected points COMPRESSION TENSION and then STRAIN STRESS for each point
E 17 expected points COMPRESSION TENSION and then STRAIN STRESS for each point
E 18 place 5 is not a whole number of 64 bits
";
    assert_eq!(rt; out.as_str(), want);
    Ok(())
}

#[test]
fn refused_and_unreadable_lines_change_nothing(rt: HostRuntime) -> Result<(), Fail> {
    let lines: [&[u8]; 7] = [
        b"steel 1000 1 0.002 1",
        b"steel 1000 nan 0.002 1 1",
        b"steel 1000 1 0.002 0 1",
        b"stress 0 0",
        b"steel 1000 1 0.002 1 1",
        b"\tuhpc 6.5e3 +20 1. .0035 0.0045 +850 0850 \r",
        b"stress 0 -2147483648",
    ];
    let out = output(rt.alloc(), &lines)?;
    let want = "E 1 expected steel MODULUS YIELD RUPTURE ALPHA GAMMA
R 1 1
R 2 0
R 8
steel 0 1000000 1000 1000 2000000 2000000
uhpc 1 6500000 17000 850 3500000 3825000
stress -1000
";
    assert_eq!(rt; out.as_str(), want);
    Ok(())
}

#[test]
fn points_and_reach(rt: HostRuntime) -> Result<(), Fail> {
    let lines: [&[u8]; 12] = [
        b"steel 1000 1 0.002 1 1",
        b"points 10000000 50000000 0 0 8000000 230000 10000000 245000",
        b"stress 1 9000000",
        b"stress 1 -5",
        b"reach 1 230000",
        b"reach 1 245000",
        b"reach 1 245001",
        b"reach 1 -2147483648",
        b"reach 0 1000",
        b"reach 2 0",
        b"points 0 1 0 0 1 1",
        b"points 1 1 0 0 0 1",
    ];
    let out = output(rt.alloc(), &lines)?;
    let want = "steel 0 1000000 1000 1000 2000000 2000000
points 1
stress 237500
stress 0
reach 8000000
reach 10000000
R 16
reach -10000000
reach 1000000
R 8
R 3
R 4 1
";
    assert_eq!(rt; out.as_str(), want);
    Ok(())
}
