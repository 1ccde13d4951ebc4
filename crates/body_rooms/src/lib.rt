//! The room that the runs of the bodies of a design need, and that a store of the design has it. There is no code: the contracts
//! of [`rooms_law`] and [`store_rooms_law`] state theorems.
#![tactic(auto)]

ghost use Rattle.body_rooms.specs.Rooms.{AmongLaw, CountedLaw, PlacesLaw, ReadyLaw, RoomLaw};

/// In a lawful design the number that `value_store::log_room` counts is what the runs of its bodies log at most, and no less
/// (`counted`). So each body can run outside of undecided tests, where there is that much room in the log and in the queue
/// the room for the parts of its nonblocking assignments (`room`).
pub fn rooms_law()
    ensures counted { CountedLaw }
    ensures room { RoomLaw }
{}

/// The queue of a store of a lawful design has a place for each part of all nonblocking assignments (`places`), among which are
/// those of each body (`among`). A store whose log is free, as it is between runs, has room for the run of each body for whose
/// parts there are places left in the queue (`ready`): after a flush, for each body.
pub fn store_rooms_law()
    ensures places { PlacesLaw }
    ensures among { AmongLaw }
    ensures ready { ReadyLaw }
{}
