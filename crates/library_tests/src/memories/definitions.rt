//! Examples of the definitions themselves.
ghost use Rattle.std.specs.Prelude.{◌≡◌, [], ◌∷◌, Some, None, true, false};
ghost use Rattle.memory_rebuild.specs.Words.{bits_read, blame_read, word_after};
ghost use Rattle.library_tests.specs.Memories.{four, four_words, negative, two, two_or_three};

use four_state::Bit;

#[test]
fn definitions() {
    worked_examples();
}

/// Examples of the definitions themselves: four words that are all sure to be 0.
fn worked_examples()
    ensures named { bits_read four_words two ≡ Some Bit.Zero ∷ [] }
    ensures past_the_words { bits_read four_words four ≡ Some Bit.X ∷ [] }
    ensures one_of_two { bits_read four_words two_or_three ≡ None ∷ [] }
    ensures below_the_words { bits_read four_words negative ≡ Some Bit.X ∷ [] }
    ensures blame_of_the_index { blame_read four_words two_or_three ≡ 9 }
    ensures blame_of_the_memory { blame_read four_words two ≡ 7 }
    ensures written { word_after four_words two (Some Bit.One ∷ []) true 2 ≡ Some Bit.One ∷ [] }
    ensures perhaps_written { word_after four_words two (Some Bit.One ∷ []) false 2 ≡ None ∷ [] }
    ensures written_to_one_of_two { word_after four_words two_or_three (Some Bit.One ∷ []) true 3 ≡ None ∷ [] }
    ensures kept { word_after four_words two_or_three (Some Bit.One ∷ []) true 1 ≡ Some Bit.Zero ∷ [] }
    ensures written_nowhere { word_after four_words negative (Some Bit.One ∷ []) true 3 ≡ Some Bit.Zero ∷ [] }
{}
