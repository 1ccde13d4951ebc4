//! Examples of the definitions themselves.
ghost use Rattle.std.specs.Prelude.{◌≡◌, [], ◌∷◌, codes, true, false};
ghost use Rattle.four_state.specs.Operators.{unary_value, binary_value, choice_value};
ghost use Rattle.four_state.specs.Examples.{digits};

use four_state::{Binary, Truth, Unary};

#[test]
fn definitions() {
    worked_examples();
}

/// Examples of the definitions themselves.
fn worked_examples()
    ensures equal_where_bits_differ { binary_value Binary.Equal false (digits (codes "1x00")) (digits (codes "0x00")) ≡ digits (codes "0") }
    ensures equal_where_none_differs { binary_value Binary.Equal false (digits (codes "x1")) (digits (codes "11")) ≡ digits (codes "x") }
    ensures case_equal { binary_value Binary.CaseEqual false (digits (codes "1z00")) (digits (codes "1x00")) ≡ digits (codes "0") }
    ensures sum_of_x { binary_value Binary.Add false (digits (codes "1x00")) (digits (codes "0001")) ≡ digits (codes "xxxx") }
    ensures sum_cut { binary_value Binary.Add false (digits (codes "11001000")) (digits (codes "01100100")) ≡ digits (codes "00101100") }
    ensures by_zero { binary_value Binary.Divide false (digits (codes "0111")) (digits (codes "0000")) ≡ digits (codes "xxxx") }
    ensures quotient { binary_value Binary.Divide true (digits (codes "1000")) (digits (codes "0011")) ≡ digits (codes "1110") }
    ensures remainder { binary_value Binary.Modulus true (digits (codes "1000")) (digits (codes "0011")) ≡ digits (codes "1110") }
    ensures or { binary_value Binary.BitwiseOr false (digits (codes "10xz")) (digits (codes "0010")) ≡ digits (codes "101x") }
    ensures unsigned_shift { binary_value Binary.ArithmeticShiftRight false (digits (codes "1000")) (digits (codes "1")) ≡ digits (codes "0100") }
    ensures signed_shift { binary_value Binary.ArithmeticShiftRight true (digits (codes "1000")) (digits (codes "1")) ≡ digits (codes "1100") }
    ensures reduction { unary_value Unary.ReduceAnd (digits (codes "1x01")) ≡ digits (codes "0") }
    ensures negation { unary_value Unary.LogicalNot (digits (codes "00x0")) ≡ digits (codes "x") }
    ensures choice { choice_value Truth.Strange (digits (codes "1010")) (digits (codes "1001")) ≡ digits (codes "10xx") }
{}
