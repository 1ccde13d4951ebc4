/// The version of a text.
#[derive(Clone, Copy)]
pub enum Version {
    /// A text of this version has no windows. It is read, and no longer written.
    One,
    Two,
}
