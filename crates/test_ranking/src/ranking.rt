use cov_host::Sequence;

/// Which of some tables are worth using, in what order.
#[derive(Drop)]
pub struct Ranking {
    /// The tables that add a point, the one that adds the most first.
    pub used: Sequence<Use>,
    /// The places of the other tables, from 0, in their order.
    pub skipped: Sequence<usize>,
    /// How many points the used tables have hit together.
    pub hit: u32,
    /// How many points each table has.
    pub points: u32,
}

/// A table that adds points to those that the tables before it have hit.
#[derive(Clone, Copy)]
pub struct Use {
    /// The place of the table, from 0.
    pub table: usize,
    /// How many points it adds.
    pub added: u32,
    /// How many points are hit with it.
    pub total: u32,
}
