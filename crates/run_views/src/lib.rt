//! A [`Store`] as the run of a body meets it, while some of its signals and memories are shown or veiled: as one relation to
//! what is kept, what is hidden and what is shown of it (`specs/Meets.antt`), and the calls that change it.
//!
//! [`show_value`] and [`veil_thing`] hide one more signal or memory, and [`show_kept`] ends this for all of them.
//! [`meets_law`] says that a run then gives what the definition of a run gives of the view.
#![tactic(auto)]

mod laws;
mod views;

pub use body_store::Store;
pub use laws::meets_law;
pub use views::{show_kept, show_value, veil_thing};
