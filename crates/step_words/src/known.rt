ghost use Rattle.std.specs.Prelude.{◌≡◌, ◌<◌, ◌≤◌, ◌^◌, true, false, length, max, min};
ghost use Rattle.four_state.specs.Masks.{bits_of_masks};
ghost use Rattle.known_state.specs.Partly.{whole_of};
ghost use Rattle.design_model.specs.BodyLaws.{word_indexes};
ghost use Rattle.design_model.specs.Design.{Design, In, is_memory, memory_at};
ghost use Rattle.design_model.specs.View.{design_view};
ghost use Rattle.store_knowledge.specs.body_replay.Store.{Kept, kept_word};
ghost use Rattle.store_knowledge.specs.Knows.{Knows};

use four_state::Four;
use known_state::Known;
use store_knowledge::Store;

/// What is known of the word of a memory with this index. It takes constant time.
pub fn known_word(store: &Store, memory: u32, index: u32) -> Known
    requires memory { is_memory (design_view store.now.design.now) memory ≡ true }
    requires index { In index (word_indexes (design_view store.now.design.now) memory) }
    ensures { (d : Design) (k : Kept) → Knows d k store.now → result.bits ≡ kept_word d k memory index }
{
    store.kept_word(memory, &index_of(index))
}

/// An index that is wholly sure.
fn index_of(index: u32) -> Known
    ensures { result ≡ whole_of (record { bits = bits_of_masks 32 index 0; signed = false }) }
{
    Known::whole(Four::make(32, false, index as u128, 0))
}
