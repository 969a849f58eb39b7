/// Why a log did not take a step. The numbers are this project's own.
#[derive(Clone, Copy, Debug, PartialEq, Eq)]
pub enum LogFault {
    /// 1: the step is not accepted. `hint` is its failing hint, from 0: the first faulty hint, or
    /// the number of hints where the last one only forces, or 0 where there is no hint or the
    /// clause has an atom out of range or one atom twice.
    NotAccepted { hint: u32 },
    /// 2: out of memory, or a log with `NUMBER_LIMIT` - 1 steps.
    NoMemory,
}
