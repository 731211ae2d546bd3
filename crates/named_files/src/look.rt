//! What a look at a name finds.

/// What a name leads to.
#[derive(Clone, Copy, Debug, PartialEq, Eq)]
pub enum Look {
    /// Nothing has this name.
    Nothing,
    /// A plain file, with its length in bytes.
    File(u64),
    /// A folder.
    Folder,
    /// Something else, such as a device, a pipe or a socket.
    Other,
}
