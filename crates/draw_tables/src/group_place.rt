/// Where a team stands: its group, counted from 0 (A), and its position there, counted from 1.
#[derive(Clone, Copy, Debug, PartialEq, Eq)]
pub struct GroupPlace {
    pub group: u32,
    pub position: u32,
}
