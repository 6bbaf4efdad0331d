ghost use Rattle.std.specs.Prelude.{◌≡◌, ◌<◌, ◌≤◌, length, slice_set, MatchResult};
ghost use Rattle.stack.specs.Contents.{TopOf};

/// The last of the first `len` entries: `None` where there are none.
pub(crate) fn top_of<T>(slots: &[T], len: usize) -> Option<&T>
    requires { len ≤ length slots.now }
    ensures { TopOf len slots.now result }
{
    slots[..len].last()
}

/// Writes an entry into the place of number i: `Err`, with the entry, where there is no such place.
pub(crate) fn put<T: Drop>(slots: &mut [T], i: usize, entry: T) -> Result<(), T>
    ensures { MatchResult result
        (λ _. (i < length slots.old) × (slots.new ≡ slice_set slots.old i entry))
        (λ e. (e ≡ entry) × (length slots.old ≤ i) × (slots.new ≡ slots.old)) }
{
    if i >= slots.len() {
        return Err(entry);
    }
    slots[i] = entry;
    Ok(())
}
