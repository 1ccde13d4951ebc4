//! Worked cases of vectors of which some bits are known, and wide ones.
ghost use Rattle.std.specs.Prelude.{◌≤◌};

use four_state::{Binary, Bit, Four};
use known_state::{Known, Maybe};

/// The unsigned vector of a number of so many bits.
fn number(width: u8, value: u128) -> Four
    requires at_least { 1 ≤ width }
    requires at_most { width ≤ 128 }
{
    Four::make(128, false, value, 0).extend(width, false)
}

/// The same, all of whose bits are known.
fn whole(width: u8, value: u128) -> Known
    requires at_least { 1 ≤ width }
    requires at_most { width ≤ 128 }
{
    Known::whole(number(width, value))
}

/// A vector of which these bits are known, from a place on.
fn partly(width: u8, blame: u32, low: i64, bits: &Known) -> Known
    requires at_least { 1 ≤ width }
    requires at_most { width ≤ 128 }
{
    Known::unknown(width, false, blame).place(low, bits)
}

/// Whether an operator gives this of operands that it takes.
fn gives(op: Binary, a: &Known, b: &Known, want: &Known) -> bool {
    (!op.takes_same_shape() || a.has_same_shape(b)) && Known::binary(op, a, b) == *want
}

/// Whether the join of two vectors is this.
fn joins(a: &Known, b: &Known, blame: u32, want: &Known) -> bool {
    a.width() == b.width() && a.join(b, blame) == *want
}

/// What is known of one bit.
fn of_one_bit(case: u8) -> bool {
    let zero = Known::whole(Four::fill(1, false, Bit::Zero));
    let unknown = Known::unknown(1, false, 5);
    match case {
        0 => gives(Binary::BitwiseAnd, &zero, &unknown, &zero),
        1 => gives(Binary::BitwiseOr, &zero, &unknown, &unknown),
        2 => unknown.holds() == Maybe::Unsure(5),
        _ => zero.holds() == Maybe::No,
    }
}

#[test]
fn bits(rt: HostRuntime) {
    for case in 0..4 {
        assert!(rt; of_one_bit(case));
    }
}

#[test]
fn joins_and_tests(rt: HostRuntime) {
    let a = whole(4, 0b1010);
    let b = whole(4, 0b1000);
    assert!(rt;
        joins(
            &a,
            &b,
            3,
            &partly(4, 3, 2, &whole(2, 0b10)).place(0, &whole(1, 0))
        )
    );
    assert!(rt; partly(4, 5, 2, &whole(1, 1)).holds() == Maybe::Yes);
}

/// An operator on two vectors of 128 bits of which some are known, or on one and a number of places.
fn of_wide_vectors(case: u8) -> bool {
    let a = partly(128, 1, 64, &whole(64, u128::MAX));
    let b = partly(128, 2, 0, &whole(127, 0xff));
    match case {
        0 => gives(
            Binary::BitwiseAnd,
            &a,
            &b,
            &partly(128, 1, 8, &whole(119, 0)),
        ),
        1 => gives(Binary::Add, &a, &b, &Known::unknown(128, false, 1)),
        2 => gives(
            Binary::Equal,
            &a,
            &b,
            &Known::whole(Four::fill(1, false, Bit::Zero)),
        ),
        3 => a.select(60, 8) == partly(8, 1, 4, &whole(4, 15)),
        _ => of_places(case, &a, &b, &whole(8, 64)),
    }
}

fn of_places(case: u8, a: &Known, b: &Known, places: &Known) -> bool {
    match case {
        4 => gives(Binary::ShiftRight, a, places, &whole(128, u128::MAX >> 64)),
        5 => gives(
            Binary::ShiftLeft,
            a,
            places,
            &partly(128, 1, 0, &whole(64, 0)),
        ),
        6 => gives(Binary::ShiftLeft, places, b, &Known::unknown(8, false, 2)),
        7 => gives(
            Binary::LogicalAnd,
            a,
            places,
            &Known::whole(Four::fill(1, false, Bit::One)),
        ),
        8 => places.place(-4, a) == Known::unknown(8, false, 1),
        _ => places.extend(128, false) == whole(128, 64),
    }
}

#[test]
fn wide_vectors(rt: HostRuntime) {
    for case in 0..10 {
        assert!(rt; of_wide_vectors(case));
    }
}

#[test]
fn zero_makes_an_unsure_bit_sure(rt: HostRuntime) {
    let low = partly(128, 1, 8, &whole(120, 0));
    let zero = whole(128, 0);
    assert!(rt; low.has_same_shape(&zero));
    assert!(rt; Known::binary(Binary::BitwiseAnd, &low, &zero).sure() == u128::MAX);
}
