/// Why no table was read.
#[derive(Clone, Copy, Debug, PartialEq, Eq)]
pub enum TableFault {
    /// The bytes are the text of no table of the file.
    NotTable,
    /// Memory ran out.
    NoMemory,
}
