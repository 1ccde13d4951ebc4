ghost use Rattle.wake_tables.specs.Table.{IsEventTable, IsTable};

use four_state::Edge;
use index_sets::Rows;

/// What wakes each process of a design and what each process may write, by number.
pub struct WakeTables {
    /// How many signals and memories there are. They are numbered from 0, the signals first.
    pub things: usize,
    /// How many processes there are. They are numbered from 0.
    pub processes: usize,
    /// For each signal or memory the processes that each change of it wakes: the Assigns and Combs that mention or list
    /// it.
    pub level: Rows<u32>,
    /// For each signal the processes that list its posedge.
    pub rising: Rows<u32>,
    /// For each signal the processes that list its negedge.
    pub falling: Rows<u32>,
    /// For each process the signals and memories that it may write by blocking assignments.
    pub blocking: Rows<u32>,
    /// For each process the signals and memories that it may write by nonblocking assignments.
    pub nonblocking: Rows<u32>,
    /// For each process its list of edges.
    pub events: Rows<(Edge, u32)>,
    ghost level_within: { IsTable level things processes },
    ghost rising_within: { IsTable rising things processes },
    ghost falling_within: { IsTable falling things processes },
    ghost blocking_within: { IsTable blocking processes things },
    ghost nonblocking_within: { IsTable nonblocking processes things },
    ghost events_within: { IsEventTable events processes things },
}

// Written out so that a crate which lets one go does not prove again how each of its parts is let go.
impl Drop for WakeTables {
    fn drop(self) {
        let WakeTables {
            things: _,
            processes: _,
            level: _,
            rising: _,
            falling: _,
            blocking: _,
            nonblocking: _,
            events: _,
        } = self;
    }
}
