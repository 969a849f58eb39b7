/// Why a text is no list, or no inquiry: its first line, counted from 1, that has not the form or
/// may not stand there, or that does not end; or want of memory.
#[derive(Clone, Copy, Debug, PartialEq, Eq)]
pub enum ListFault {
    Line(u64),
    NoMemory,
}
