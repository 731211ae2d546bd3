//! What a name of a folder in memory leads to.

/// What a name of a folder in memory leads to.
#[derive(Drop)]
pub enum Item {
    /// Nothing has the name.
    Nothing,
    /// A file of these bytes.
    File(Vec<u8>),
    /// A folder.
    Folder,
    /// Something else, such as a device, a pipe or a socket.
    Other,
}
