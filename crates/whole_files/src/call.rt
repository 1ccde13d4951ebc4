ghost use Rattle.std.specs.Prelude.{◌≡◌};
ghost use Rattle.whole_files.specs.Call.{call_name};

/// A call on a host that reads or writes a file.
#[derive(Clone, Copy)]
pub enum Call {
    OpenRead,
    Read,
    OpenWrite,
    Write,
    CloseWrite,
}

impl Call {
    /// The call as it is written.
    pub fn name(self) -> &'static str
        ensures { result.now ≡ call_name self }
    {
        match self {
            Call::OpenRead => "open_read",
            Call::Read => "read",
            Call::OpenWrite => "open_write",
            Call::Write => "write",
            Call::CloseWrite => "close_write",
        }
    }
}
