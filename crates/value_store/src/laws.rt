//! What the calls of a store keep of what is known of the cells of a design.

ghost use Rattle.value_store.specs.Held.{SetLaw, SetPartLaw, UpdateLaw, UpdatePartLaw};

/// A store that keeps what is known of the signals of a design keeps it after each write: what is known is then what the
/// writes of the assignment leave, bit by bit, and what is to blame is what the run of a body blames.
pub fn writes_law()
    ensures set { SetLaw }
    ensures set_part { SetPartLaw }
    ensures update { UpdateLaw }
    ensures update_part { UpdatePartLaw }
{}
