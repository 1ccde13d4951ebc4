//! The coverage database: the points of a design with their verdicts, its text, and the merge of two databases.
//!
//! [`Db`] is a table of points in their order, each hit, missed or undetermined, and of the windows of dumps that were
//! scored. [`write_db`] gives exactly its text; [`read_db`] accepts exactly the texts of tables up to 2^31 bytes, also
//! those of version 1, which have no windows, and names the first line that does not fit; [`merge`] joins two tables of
//! one design, or names the first line that differs. The functions of `laws` state that no two tables have one text,
//! that a merge is commutative, associative and idempotent, that it has a point hit exactly where one of the tables
//! has, and that it has the windows of both.
//!
//! ```text
//! let left = read_db(alloc, one)?;          // the bytes of two databases of one design
//! let right = read_db(alloc, other)?;
//! let both = merge(alloc, left, &right)?;   // hit where one of them is hit
//! let text = write_db(alloc, &both)?;       // `covered-db 2`, the top, the sources, the instances, the points, the windows
//! ```
#![tactic(auto)]

mod address;
mod bare_line;
mod db;
mod difference;
mod draft;
mod fault;
mod fields;
mod head;
mod instances;
mod laws;
mod line_fault;
mod merging;
mod number;
mod read;
mod read_point;
mod read_subject;
mod read_window;
mod same;
mod split;
mod verdict;
mod verdict_join;
mod version;
mod window;
mod window_join;
mod write;

pub use address::{Address, SourceLine, Subject};
pub use db::{Db, DbInstance, DbPoint};
pub use fault::{DbFault, DbKind, MergeFault};
pub use laws::{merge_laws, one_text};
pub use merging::merge;
pub use point_words::{LineWord, NodeCase, Operator};
pub use read::read_db;
pub use verdict::DbVerdict;
pub use version::Version;
pub use window::Window;
pub use write::{push_instance, push_sources, push_subject, write_db};
