// The words of a command line, and what a word may stand for.

/// What of a line is not understood.
#[derive(Clone, Copy)]
pub struct Unknown<'a>(pub &'a [u8]);

/// The part of the text before its first blank, and the part after it: none where there is no blank.
pub fn cut(text: &[u8]) -> (&[u8], Option<&[u8]>) {
    match text.iter().position(|byte| *byte == b' ') {
        Some(blank) => (&text[..blank], Some(&text[blank + 1..])),
        None => (text, None),
    }
}

/// The number that a word of decimal digits stands for, the largest of its type where it is larger.
pub fn number(word: &[u8]) -> Result<usize, Unknown<'_>> {
    if word.is_empty() {
        return Err(Unknown(word));
    }
    word.iter().try_fold(0usize, |value, byte| match byte {
        b'0'..=b'9' => Ok(
            value
                .saturating_mul(10)
                .saturating_add((*byte - b'0') as usize),
        ),
        _ => Err(Unknown(word)),
    })
}

/// A move's text, filled up with blanks to five bytes: none where it is longer.
pub fn move_text(word: &[u8]) -> Option<[u8; 5]> {
    let mut text = [b' '; 5];
    text.get_mut(..word.len())?.copy_from_slice(word);
    Some(text)
}
