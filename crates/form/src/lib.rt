#![tactic(auto)]

ghost use Rattle.std.specs.Prelude.{◌≡◌, ℕ, ◌<◌, ◌≤◌, List, [], ◌∷◌, ◌++◌, length, MatchResult};
ghost use Rattle.form.specs.Forms.{Form as Rule, Lively, Says, TextsOf, Departs, reading, padded};
ghost use Rattle.form.specs.Lines.{Holds};

mod line;

use line::Line;

/// A reader of texts of a form: a state that says what may come next.
pub trait Form: Sized + Drop {
    /// What a text of the form says.
    type Content;

    // the form that is read
    ghost form: { Rule Self Self.Content };

    // the states that reading can come to
    ghost fit: { Self → Type 0 };

    /// The state before the first byte.
    fn first() -> Self
        ensures { result ≡ form.first };

    /// The state after one byte more, or none where no text of the form goes on with it.
    fn next(self, byte: u8) -> Option<Self>
        requires { fit self }
        ensures { result ≡ form.next self byte };

    /// What a text that ends here says, or none where no text of the form ends.
    fn content(self) -> Option<Self::Content>
        ensures { result ≡ form.content self };

    ghost lively: { Lively form fit };
}

/// What a text says, or the place where it departs from the form: how many of its bytes a text of the form begins with.
pub fn read<F: Form>(text: &[u8]) -> Result<F::Content, usize>
    ensures exact { result ≡ reading F.Form.form text.now }
    ensures meaning { MatchResult result
        (λ a. Says F.Form.form text.now a)
        (λ n. Departs (TextsOf F.Form.form) text.now n) }
{
    let mut state = F::first();
    for (place, byte) in text.iter().enumerate() {
        state = state.next(*byte).ok_or(place)?;
    }
    state.content().ok_or(text.len())
}

impl Line {
    // A line with nothing written into it.
    pub(crate) fn new() -> Line
        ensures { Holds result [] }
    {
        Line {
            bytes: [b' '; 87],
            len: 0,
        }
    }

    // One byte more at the end of the text: the same line where the 87 bytes are full.
    pub(crate) fn push(self, byte: u8) -> Line
        ensures writes { (t : List ℕ) → Holds self t → length t < 87 → Holds result (t ++ byte ∷ []) }
        ensures full { 87 ≤ self.len → result ≡ self }
    {
        if self.len >= 87 {
            return self;
        }
        let mut bytes = self.bytes;
        bytes[self.len] = byte;
        Line {
            bytes,
            len: self.len + 1,
        }
    }

    // The text that was written, and blanks.
    pub(crate) fn bytes(self) -> [u8; 87]
        ensures { (t : List ℕ) → Holds self t → result ≡ padded 87 t }
    {
        self.bytes
    }
}
