//! A state file that the caller opened.

ghost use Rattle.std.specs.Prelude.{◌≡◌};
ghost use Rattle.nitro_library.specs.Asked.{after_of};

/// What the caller says of a state file, which it opened for reading and appending and locked.
#[repr(C)]
#[derive(Clone, Copy)]
pub struct OpenedFile {
    /// The number of its inode.
    pub inode: u64,
    /// The responses to records with higher numbers are given again, if `answered` says so; else none are.
    pub after: u64,
    pub answered: bool,
    /// Whether the file may have another inode than when it was begun.
    pub moved: bool,
}

impl OpenedFile {
    /// The number up to which responses are left out, if some are given again.
    pub(crate) fn after(&self) -> Option<u64>
        ensures { result ≡ after_of self.now }
    {
        if self.answered {
            Some(self.after)
        } else {
            None
        }
    }
}
