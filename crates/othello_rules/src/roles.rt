// The discs of a diagram by role: those of the side to move, and the hostile ones.
#[derive(Clone, Copy)]
pub(crate) struct Roles {
    pub(crate) own: u64,
    pub(crate) other: u64,
}
