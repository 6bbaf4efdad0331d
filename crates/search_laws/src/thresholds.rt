/// The thresholds of a frame: it works on until its proof number or its disproof number has reached the one or the other.
#[derive(Clone, Copy, PartialEq, Eq, Debug)]
pub struct Thresholds {
    pub proof: u32,
    pub disproof: u32,
}
