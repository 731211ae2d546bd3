//! Which kind of file the system found.
ghost use Rattle.std.specs.Prelude.{◌≡◌};
ghost use Rattle.system.specs.FileKinds.{is_file_kind, is_folder_kind};

/// Which kind of file the system found.
#[derive(Clone, Copy, Debug, PartialEq, Eq)]
pub enum FileKind {
    /// A plain file.
    File,
    Folder,
    /// A symbolic link itself, and not what it leads to.
    Link,
    /// A device, a pipe or a socket.
    Other,
}

impl FileKind {
    /// Whether it is a plain file.
    pub fn is_file(self) -> bool
        ensures { result ≡ is_file_kind self }
    {
        matches!(&self, FileKind::File)
    }

    /// Whether it is a folder.
    pub fn is_folder(self) -> bool
        ensures { result ≡ is_folder_kind self }
    {
        matches!(&self, FileKind::Folder)
    }
}
