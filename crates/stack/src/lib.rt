#![tactic(auto)]

ghost use Rattle.std.specs.Prelude.{◌≤◌, length};

mod methods;
mod slots;
#[cfg(test)]
mod tests;

/// A stack of entries of any type, in a slice that is lent to it: the first `len` entries of the slice, the top one last. When its life
/// ends the slice holds the entries, the top one last, and above them what was above the top.
// The slice with a length beside it is a form that the project's rules fix: the stack lies in a slice that is lent.
#[derive(Drop)]
pub struct Stack<'a, T> {
    slots: &'a mut [T],
    len: usize,
    ghost fits: { len ≤ length slots.now },
}
