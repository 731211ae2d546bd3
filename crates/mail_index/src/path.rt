//! Names of archives.
ghost use Rattle.std.specs.Prelude.{◌↔◌, IsTrue};
ghost use Rattle.mail_index.specs.Tables.{IsPath};

/// Whether an index may use this name for an archive: 1 to 4,096 bytes, with no line feed and no NUL.
pub fn is_path(path: &str) -> bool
    ensures { IsTrue result ↔ IsPath path.now }
{
    let bytes = path.as_bytes();
    !bytes.is_empty() && bytes.len() <= 4096 && !bytes.contains(&b'\n') && !bytes.contains(&0)
}
