/// What was read before a word of the body.
#[derive(Clone, Copy)]
pub(crate) struct Past {
    /// The last time.
    pub(crate) last: Option<u64>,
    /// Whether the dump is on.
    pub(crate) is_on: bool,
    /// How many stretches have begun. The dump begins with one.
    pub(crate) stretches: u32,
}
