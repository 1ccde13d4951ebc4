//! What dumps say.
use crate::dumps::pieces::{Opened, SIZES, next, open, piece};
use std::alloc::Global;
use vcd_reader::{Item, Var, Vars};

/// A dump as a simulator writes it: real variables, parameters, words of memories, groups and a comment in the body.
const REALISTIC: &[u8] =
    b"$date\n\tThu Jan  4 12:00:00 2024\n$end\n$version\n\town example\n$end\n$timescale\n\t1ns\n$end\n$scope module tb $end\n$var wire 2 ! st [1:0] $end\n$var reg 1 \" clk $end\n$var reg 1 # rst $end\n$var real 1 ) load $end\n$var reg 8 ( \\mem[0] [7:0] $end\n$scope module dut $end\n$var wire 1 \" clk $end\n$var wire 1 % go $end\n$var wire 1 & last $end\n$var wire 1 # rst $end\n$var parameter 2 ' IDLE $end\n$var reg 2 ! st [1:0] $end\n$upscope $end\n$upscope $end\n$enddefinitions $end\n$comment Show the parameter values. $end\n$dumpall\nb0 '\n$end\n#0\n$dumpvars\nr0 )\nbx (\nbx !\n0\"\n1#\n0%\nx&\n$end\n#5\n1\"\nb0 !\n0&\n#10\n0\"\n0#\n1%\n#15\n1\"\nb1 !\n#20\n0\"\n0%\n#25\n1\"\n1&\n#30\n0\"\n#35\n1\"\nb10 !\n0&\n#40\n0\"\n#45\n1\"\nb0 !\n#50\n0\"\n";

/// A time with the width 0, or a change: its code, its width, and its masks of 1 and z and of x and z. Where the dump goes off
/// or on there is a width of its own.
type Expected = (u64, u8, u128, u128);

/// The dump goes off.
const OFF: Expected = (0, 253, 0, 0);

/// The dump goes on before the first time.
const ON: Expected = (0, 254, 0, 0);

/// What the dump says, in order.
#[rattlefmt::skip]
const SAYS: &[Expected] = &[
    (0, 0, 0, 0),
    (4, 8, 0, 255),
    (0, 2, 0, 3),
    (1, 1, 0, 0),
    (2, 1, 1, 0),
    (5, 1, 0, 0),
    (6, 1, 0, 1),
    (5, 0, 0, 0),
    (1, 1, 1, 0),
    (0, 2, 0, 0),
    (6, 1, 0, 0),
    (10, 0, 0, 0),
    (1, 1, 0, 0),
    (2, 1, 0, 0),
    (5, 1, 1, 0),
    (15, 0, 0, 0),
    (1, 1, 1, 0),
    (0, 2, 1, 0),
    (20, 0, 0, 0),
    (1, 1, 0, 0),
    (5, 1, 0, 0),
    (25, 0, 0, 0),
    (1, 1, 1, 0),
    (6, 1, 1, 0),
    (30, 0, 0, 0),
    (1, 1, 0, 0),
    (35, 0, 0, 0),
    (1, 1, 1, 0),
    (0, 2, 2, 0),
    (6, 1, 0, 0),
    (40, 0, 0, 0),
    (1, 1, 0, 0),
    (45, 0, 0, 0),
    (1, 1, 1, 0),
    (0, 2, 0, 0),
    (50, 0, 0, 0),
    (1, 1, 0, 0),
];

/// A header of a vector of 8 bits, a bit, a vector of 200 bits, a real variable, and one code of two kinds.
pub(crate) const HEADER: &[u8] =
    b"$date $var $end$scope $end $scope module tb $end $scope begin $end\n$var wire 8 ! v[7:0] $end $var wire 1 $var s $end $var reg 0200 ( wide $end $var real 64 r r $end $var real 4 ) a $end $var reg 4 ) b [3:0] $end $end skipped $end $upscope $end $enddefinitions $end ";

/// Bodies after this header, and what they say.
const BODIES: &[(&[u8], &[Expected])] = &[
    (b"", &[]),
    (b"b11 !", &[(0, 8, 3, 0)]),
    // Values before the first time come before it.
    (
        b"1$var\n#007 0$var",
        &[(1, 1, 1, 0), (7, 0, 0, 0), (1, 1, 0, 0)],
    ),
    // A time that is equal to the last says nothing.
    (
        b"#3 1$var #3 #4 #4",
        &[(3, 0, 0, 0), (1, 1, 1, 0), (4, 0, 0, 0)],
    ),
    // Fewer digits are extended by 0, x and z.
    (
        b"1! x! z! bX0 ! BZ1 !",
        &[
            (0, 8, 1, 0),
            (0, 8, 0, 255),
            (0, 8, 255, 255),
            (0, 8, 0, 254),
            (0, 8, 255, 254),
        ],
    ),
    // Wide vectors, real variables and strings are passed over, and a code of a real and a read variable is read.
    (b"b1 ( 1r r1.5 ? s \t1\n0) Sx !", &[(4, 4, 0, 0)]),
    // Groups and comments say nothing.
    (
        b"$dumpvars 1$var $end $dumpall $end $dumpon $comment #1 b2 $dumpoff $end 0$var",
        &[(1, 1, 1, 0), (1, 1, 0, 0)],
    ),
    // Where the dump is off, times and changes are read and dropped. It goes on at the last time.
    (
        b"#3 $dumpoff x$var b1 ! #4 #6 $end $dumpon 1$var #6 #9",
        &[
            (3, 0, 0, 0),
            OFF,
            (6, 255, 0, 0),
            (1, 1, 1, 0),
            (9, 0, 0, 0),
        ],
    ),
    // To go off where it is off, and on where it is on, means nothing. A stretch may begin where the one before ends.
    (
        b"#3 $dumpon $dumpoff $dumpoff $dumpon $dumpon 0$var",
        &[(3, 0, 0, 0), OFF, (3, 255, 0, 0), (1, 1, 0, 0)],
    ),
    // Before the first time there is no time at which it goes on.
    (
        b"1$var $dumpoff x$var $dumpon 0$var #2",
        &[(1, 1, 1, 0), OFF, ON, (1, 1, 0, 0), (2, 0, 0, 0)],
    ),
    (
        b"#3 $dumpoff #4 $dumpon",
        &[(3, 0, 0, 0), OFF, (4, 255, 0, 0)],
    ),
    (b"#3 $dumpoff #4", &[(3, 0, 0, 0), OFF]),
    (
        b"#9223372036854775807",
        &[(9_223_372_036_854_775_807, 0, 0, 0)],
    ),
    (b"r r", &[]),
];

/// Whether a dump that goes on at this time, if there was one, is what is expected.
fn is_begun(time: Option<u64>, expected: &Expected) -> bool {
    let (first, width, _, _) = *expected;
    match time {
        None => width == 254,
        Some(time) => width == 255 && time == first,
    }
}

/// Whether an item is the expected one.
fn is_expected(item: Item, expected: &Expected) -> bool {
    let (first, width, ones, strange) = *expected;
    match item {
        Item::Time(time) => width == 0 && time == first,
        Item::Value { code, value } => {
            width == value.width()
                && u64::from(code) == first
                && value.ones() == ones
                && value.strange() == strange
        }
        Item::Off => width == 253,
        Item::On(time) => is_begun(time, expected),
        Item::More | Item::End => false,
    }
}

/// Of which codes the changes are asked for: all, none, or some; a code past the end of a list is not wanted.
const WANTED: &[Option<&[bool]>] = &[
    None,
    Some(&[]),
    Some(&[true]),
    Some(&[false, true, false, true, false, true]),
];

/// Whether a time or a change is asked for.
fn is_wanted(expected: &Expected, wanted: Option<&[bool]>) -> bool {
    let (first, width, _, _) = *expected;
    match wanted {
        None => true,
        Some(wanted) => { width == 0 || width >= 253 || wanted.get(first as usize) == Some(&true) }
    }
}

/// The number of the next time or change that is asked for.
fn next_wanted(expected: &[Expected], from: usize, wanted: Option<&[bool]>) -> usize {
    for (place, it) in expected.iter().enumerate() {
        if place >= from && is_wanted(it, wanted) {
            return place;
        }
    }
    expected.len()
}

/// Whether a body says exactly what is asked for of this, in pieces of this length.
fn says(
    opened: Opened,
    text: &[u8],
    size: usize,
    expected: &[Expected],
    wanted: Option<&[bool]>,
) -> bool {
    let mut opened = opened;
    let mut count = next_wanted(expected, 0, wanted);
    for _ in 0..=text.len() {
        let Ok(step) = next(&mut opened.body, piece(text, opened.at, size), wanted) else {
            return false;
        };
        opened.at = opened.at.saturating_add(step.used);
        match step.item {
            Item::More => {}
            Item::End => return count == expected.len(),
            item => {
                if count >= expected.len() || !is_expected(item, &expected[count]) {
                    return false;
                }
                count = next_wanted(expected, count + 1, wanted);
            }
        }
    }
    opened.body.next(b"").is_ok() && count == expected.len()
}

/// Whether a text says this in pieces of each length.
fn says_in_pieces(alloc: Global, text: &[u8], expected: &[Expected]) -> bool {
    SIZES
        .iter()
        .all(|size| says_for_all(alloc, text, *size, expected))
}

/// Whether a text says what is asked for of this in pieces of this length.
fn says_for_all(alloc: Global, text: &[u8], size: usize, expected: &[Expected]) -> bool {
    WANTED.iter().all(|wanted| match open(alloc, text, size) {
        Ok(opened) => says(opened, text, size, expected, *wanted),
        Err(_) => false,
    })
}

/// The text of a body after the header.
pub(crate) fn with_header(alloc: Global, body: &[u8]) -> Option<Vec<u8>> {
    let mut text = Vec::from_slice(alloc, HEADER).ok()?;
    text.extend_from_slice(body).ok()?;
    Some(text)
}

fn says_behind_header(alloc: Global, body: &[u8], expected: &[Expected]) -> bool {
    match with_header(alloc, body) {
        Some(text) => says_in_pieces(alloc, text.as_slice(), expected),
        None => false,
    }
}

#[test]
fn a_realistic_dump_is_read(rt: HostRuntime) {
    assert!(rt; says_in_pieces(rt.alloc(), REALISTIC, SAYS));
}

#[test]
fn bodies_are_read(rt: HostRuntime) {
    for (body, expected) in BODIES {
        assert!(rt; says_behind_header(rt.alloc(), body, expected));
    }
}

/// The variables of a text, of which there are so many.
fn variables(alloc: Global, text: &[u8], count: usize) -> Option<Vars> {
    match open(alloc, text, 7) {
        Ok(opened) if opened.vars.len() == count => Some(opened.vars),
        _ => None,
    }
}

/// Whether it is the last variable of the header.
fn is_last(var: &Var) -> bool {
    var.scope.as_slice() == b"tb.".as_slice()
        && var.kind.as_slice() == b"reg".as_slice()
        && var.name.as_slice() == b"b".as_slice()
        && var.size == 4
        && var.code == 4
}

#[test]
fn variables_are_read(rt: HostRuntime) {
    assert!(rt; variables(rt.alloc(), REALISTIC, 11).is_some());
    assert!(rt;
        match variables(rt.alloc(), HEADER, 6) {
            Some(vars) => vars.get(5).is_some_and(is_last),
            None => false,
        }
    );
}
