//! What a store asks of a design, and what it keeps and shows.

ghost use Rattle.body_store.specs.Laws.{FlushLaw, PlainLaw, SeenLaw, UnderLaw};
ghost use Rattle.body_store.specs.Owned.{HeldLaw, KeptOwnLaw, ReadOwnLaw, SameLaw, ShownOwnLaw, VeiledOwnLaw};
ghost use Rattle.body_store.specs.Premises.{PremisesLaw};

/// A lawful design meets what `Store::new` asks: each signal and each word has 1 to 128 bits, and there are few enough of
/// them.
pub fn premises_law()
    ensures { PremisesLaw }
{}

/// What bodies read of a store is what the definition of a run reads of its view. What is kept is what bodies read, and under
/// what is shown or veiled what a run leaves. Where nothing is shown or veiled bodies read what is kept. The writes that runs
/// have queued one after the other are made as those of one list.
pub fn views_law()
    ensures seen { SeenLaw }
    ensures under { UnderLaw }
    ensures plain { PlainLaw }
    ensures flush { FlushLaw }
{}

/// Where what a store holds, or what bodies read, has each signal and memory to blame for itself, so has what is kept, or
/// what bodies read of it, and it stays so where something is shown or veiled. What a store holds is what is kept, if nothing
/// is known outside of the design. Where nothing is shown or veiled, what is kept is what bodies read.
pub fn own_law()
    ensures kept { KeptOwnLaw }
    ensures read { ReadOwnLaw }
    ensures held { HeldLaw }
    ensures same { SameLaw }
    ensures shown { ShownOwnLaw }
    ensures veiled { VeiledOwnLaw }
{}
