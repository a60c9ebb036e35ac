//! Why a name is not changed.

/// Why a name is not changed to another one.
#[derive(Clone, Copy)]
pub enum RenameFault {
    /// The new name is no name in the profile.
    NoName,
    /// The new name stands in the source already.
    Taken,
    /// The old or the new name stands in a line whose text has a fault: the first such line, by its
    /// number from 1. Whether it is a name there is not known before the line is mended.
    Faulty(u32),
    /// The source denotes an image, and with the new name it would not denote the same one, since a
    /// line or the source would have too many bytes.
    Changed,
    /// An allocation failed.
    OutOfMemory,
}

impl From<std::alloc::AllocError> for RenameFault {
    ghost use Rattle.std.specs.Prelude.{◌≡◌};
    ghost use Rattle.name_uses.specs.declared.fault.RenameFault.TheVariants.{OutOfMemory};

    ghost from_gives = { λ _ e. e ≡ OutOfMemory };

    fn from(_error: std::alloc::AllocError) -> RenameFault {
        RenameFault::OutOfMemory
    }
}
