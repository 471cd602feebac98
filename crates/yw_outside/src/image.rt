// Both files and the output, as they read or as a crash may leave them.
use yw_base::Bytes;

/// Both files, and the output said by then.
#[derive(Debug, Drop)]
pub struct Image {
    pub a: Bytes,
    pub b: Bytes,
    pub said: Bytes,
}

/// What stands in the written ranges that no sync of their file has followed.
#[derive(Clone, Copy, Debug, PartialEq, Eq)]
pub enum Fill {
    /// What stood there at the file's last sync that succeeded. The file ends where it ended then.
    Old,
    /// What a read gives.
    New,
    /// Of each write in turn the first half of its bytes, rounded down. A write that begins past what
    /// then stands leaves nothing.
    Half,
    /// This byte, over the whole of each range, up to the last byte written.
    Byte(u8),
}
