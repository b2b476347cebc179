// Texts that are built: great figures, many modules, and the limits of a text.
use crate::verdict::{accepts, refuses};
use std::process::Abort;
use std::test::Fail;

// Figures, or cause, line and column. Tuples and not `Figures` and `Place`: field names would make each row several lines long.
type Verdict = Result<(u16, u16), (u8, u32, u32)>;

fn has(rt: &impl Abort, row: usize, text: &[u8], verdict: Verdict) -> Result<(), Fail> {
    match verdict {
        Ok((quick, slow)) => accepts(rt, row, text, quick, slow),
        Err((cause, line, column)) => refuses(rt, row, text, cause, line, column),
    }
}

fn repeat(text: &mut Vec<u8>, part: &[u8], times: usize) -> Result<(), Fail> {
    for _ in 0..times {
        text.extend_from_slice(part)?;
    }
    Ok(())
}

// `:` or `G`, the three digits of a module, and a blank: bytes and no `write!`, since `repeat` takes bytes.
fn named(sign: u8, module: u8) -> [u8; 5] {
    [
        sign,
        b'0' + module / 100,
        b'0' + module / 10 % 10,
        b'0' + module % 10,
        b' ',
    ]
}

// How often a level calls a module whose call takes 100 steps, and how many loads it has: 100 x calls + loads + 1 steps.
#[derive(Clone, Copy)]
struct Level {
    calls: usize,
    loads: usize,
}

fn add_level(text: &mut Vec<u8>, label: &[u8], level: Level, end: &[u8]) -> Result<(), Fail> {
    text.extend_from_slice(label)?;
    repeat(text, b"G003 ", level.calls)?;
    repeat(text, b"L0 ", level.loads)?;
    text.extend_from_slice(end)?;
    Ok(())
}

const REST: Level = Level { calls: 0, loads: 0 };

const FULL: Level = Level {
    calls: 599,
    loads: 99,
};

const OVER: Level = Level {
    calls: 599,
    loads: 100,
};

const CALLS_OVER: Level = Level {
    calls: 600,
    loads: 0,
};

const LOADS_OVER: Level = Level {
    calls: 598,
    loads: 200,
};

const LESS: Level = Level {
    calls: 598,
    loads: 199,
};

// :001 and its commands behind the calls and loads, :000, and whether :000 stands first.
const GREAT: [(Level, &[u8], Level, bool, Verdict); 18] = [
    (FULL, b"", REST, false, Ok((60000, 1))),
    (LESS, b"", REST, false, Ok((60000, 1))),
    (OVER, b"", REST, false, Err((13, 1, 1))),
    (CALLS_OVER, b"", REST, false, Err((13, 1, 1))),
    (LOADS_OVER, b"", REST, false, Err((13, 1, 1))),
    (OVER, b"", REST, true, Err((13, 1, 9))),
    (REST, b"", FULL, false, Ok((1, 60000))),
    (REST, b"", FULL, true, Ok((1, 60000))),
    (REST, b"", OVER, false, Err((13, 1, 9))),
    (REST, b"", CALLS_OVER, true, Err((13, 1, 1))),
    (FULL, b"", FULL, false, Ok((60000, 60000))),
    (LESS, b"", FULL, true, Ok((60000, 60000))),
    (FULL, b"", OVER, true, Err((13, 1, 1))),
    (CALLS_OVER, b"", CALLS_OVER, false, Err((13, 1, 1))),
    (CALLS_OVER, b"", CALLS_OVER, true, Err((13, 1, 3009))),
    (CALLS_OVER, b"", FULL, true, Err((13, 1, 3301))),
    (LESS, b"I000 Z ", REST, false, Err((13, 1, 1))),
    (FULL, b"/* L0 */ ", REST, false, Ok((60000, 1))),
];

#[test]
fn great_figures(rt: HostRuntime) -> Result<(), Fail> {
    for (row, (quick, more, slow, slow_first, verdict)) in GREAT.iter().enumerate() {
        let mut text = Vec::new(rt.alloc());
        if *slow_first {
            add_level(&mut text, b":000 ", *slow, b"J0 ")?;
        }
        add_level(&mut text, b":001 ", *quick, more)?;
        text.extend_from_slice(b"J1 ")?;
        if !*slow_first {
            add_level(&mut text, b":000 ", *slow, b"J0 ")?;
        }
        text.extend_from_slice(b":003 ")?;
        repeat(&mut text, b"G004 ", 49)?;
        text.extend_from_slice(b"R :004 R")?;
        has(&rt, row, text.as_slice(), *verdict)?;
    }
    Ok(())
}

// What stands before :003, behind 599 calls of 100 steps and 97 loads in :001: 59,998 steps with the end.
const TAILS: [(&[u8], Verdict); 7] = [
    (b"L1 L2", Ok((60000, 1))),
    (b"L1 L2 L3", Err((13, 1, 1))),
    (b"I000 L1 Z", Ok((60000, 1))),
    (b"I000 L1 E Z", Err((13, 1, 1))),
    (b"I000 E L1 Z", Ok((60000, 1))),
    (b"I000 E L1 L2 Z", Err((13, 1, 1))),
    (b"[ L1 ]", Err((13, 1, 1))),
];

#[test]
fn figures_that_a_branch_makes_too_great(rt: HostRuntime) -> Result<(), Fail> {
    let level = Level {
        calls: 599,
        loads: 97,
    };
    for (row, (tail, verdict)) in TAILS.iter().enumerate() {
        let mut text = Vec::new(rt.alloc());
        add_level(&mut text, b":001 ", level, tail)?;
        text.extend_from_slice(b" J1 :000 J0 :003 ")?;
        repeat(&mut text, b"G004 ", 49)?;
        text.extend_from_slice(b"R :004 R")?;
        has(&rt, row, text.as_slice(), *verdict)?;
    }
    Ok(())
}

// The two levels, how many modules there are below, how often each calls the next one, and the verdict.
const POWERS: [(&[u8], u8, usize, Verdict); 14] = [
    (b":001 G003 J1 :000 J0 ", 8, 1, Ok((17, 1))),
    (b":001 G003 J1 :000 J0 ", 9, 1, Err((13, 1, 1))),
    (b":001 G003 J1 :000 J0 ", 8, 3, Ok((6561, 1))),
    (b":001 G003 J1 :000 J0 ", 8, 4, Ok((43691, 1))),
    (b":001 J1 :000 G003 J0 ", 8, 4, Ok((1, 43691))),
    (b":001 G003 J1 :000 G004 J0 ", 8, 4, Ok((43691, 10923))),
    (b":001 G003 J1 :000 J0 ", 7, 5, Ok((39063, 1))),
    (b":001 G003 J1 :000 J0 ", 8, 5, Err((13, 1, 1))),
    (b":001 J1 :000 G003 J0 ", 8, 5, Err((13, 1, 9))),
    (b":000 G003 J0 :001 G004 J1 ", 8, 5, Err((13, 1, 1))),
    (b":000 G003 J0 :001 G003 J1 ", 8, 30, Err((13, 1, 14))),
    (b":001 G003 J1 :000 J0 ", 62, 30, Err((13, 1, 1))),
    (b":001 J1 :000 G003 J0 ", 62, 30, Err((13, 1, 9))),
    (b":001 J1 :000 J0 ", 62, 30, Ok((1, 1))),
];

#[test]
fn modules_that_call_the_next(rt: HostRuntime) -> Result<(), Fail> {
    for (row, (levels, modules, times, verdict)) in POWERS.iter().enumerate() {
        let mut text = Vec::new(rt.alloc());
        text.extend_from_slice(levels)?;
        for i in 1..=*modules {
            if i <= 62 {
                text.extend_from_slice(&named(b':', i + 2))?;
                if i < *modules {
                    repeat(&mut text, &named(b'G', i + 3), *times)?;
                }
                text.extend_from_slice(b"R ")?;
            }
        }
        has(&rt, row, text.as_slice(), *verdict)?;
    }
    Ok(())
}

// What stands before, what is repeated how often, what stands behind, and the verdict.
const LIMITS: [(&[u8], &[u8], usize, &[u8], Verdict); 8] = [
    (b":001 J1 :000 J0", b" ", 16369, b"", Ok((1, 1))),
    (b":001 J1 :000 J0", b" ", 16370, b"", Err((1, 0, 0))),
    (b":001 J1 :000", b"\n", 16370, b"J0", Ok((1, 1))),
    (b":001 J1", b"\n", 16377, b"", Err((10, 16378, 1))),
    (b":001 ", b"L0 ", 2044, b"J1 :000 J0", Ok((2045, 1))),
    (b":001 ", b"L0 ", 2045, b"J1 :000 J0", Err((6, 1, 6149))),
    (b":001 ", b"[L0] ", 681, b"J1 :000 J0", Ok((2044, 1))),
    (
        b":001 ",
        b"G003 ",
        2042,
        b"J1 :000 J0 :003 R",
        Ok((4085, 1)),
    ),
];

#[test]
fn limits_of_a_text(rt: HostRuntime) -> Result<(), Fail> {
    for (row, (before, part, times, behind, verdict)) in LIMITS.iter().enumerate() {
        let mut text = Vec::new(rt.alloc());
        text.extend_from_slice(before)?;
        repeat(&mut text, part, *times)?;
        text.extend_from_slice(behind)?;
        has(&rt, row, text.as_slice(), *verdict)?;
    }
    Ok(())
}

#[test]
fn limit_of_modules(rt: HostRuntime) -> Result<(), Fail> {
    let mut text = Vec::new(rt.alloc());
    text.extend_from_slice(b":001 J1 :000 J0 ")?;
    for module in 3..65u8 {
        text.extend_from_slice(&named(b':', module))?;
        text.extend_from_slice(b"R ")?;
    }
    accepts(&rt, 0, text.as_slice(), 1, 1)?;
    text.extend_from_slice(b":199 R")?;
    refuses(&rt, 1, text.as_slice(), 8, 1, 451)
}
