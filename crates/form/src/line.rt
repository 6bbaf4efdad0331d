ghost use Rattle.std.specs.Prelude.{◌≡◌, ◌≤◌, take};
ghost use Rattle.form.specs.Forms.{padded};

// A text that is written from its front into 87 bytes, with blanks after it.
// An array and a length, and no vector of fixed capacity: what follows the text has to be blanks, which are part of the value.
#[derive(Clone, Copy)]
pub(crate) struct Line {
    pub(crate) bytes: [u8; 87],
    pub(crate) len: usize,
    ghost within: { len ≤ 87 },
    ghost blanks: { bytes ≡ padded 87 (take len bytes) },
}
