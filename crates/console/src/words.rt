// The words of a line.
use crate::wrong::{Why, Wrong};
use std::alloc::{AllocError, Global};
use std::str::FromStr;

// With the place of its first byte in the line.
#[derive(Clone, Copy)]
pub struct Word<'a> {
    pub place: usize,
    pub text: &'a str,
}

impl<'a> Word<'a> {
    pub(crate) fn wrong(self, why: Why) -> Wrong {
        Wrong {
            place: self.place,
            why,
        }
    }

    // What stands before the first colon, and the word behind it.
    pub(crate) fn halves(self) -> Option<(&'a str, Word<'a>)> {
        let (front, text) = self.text.split_once(':')?;
        let place = self.place.saturating_add(front.len()).saturating_add(1);
        Some((front, Word { place, text }))
    }

    pub(crate) fn number<T: FromStr>(self) -> Result<T, Wrong>
    where
        T::Err: Drop,
    {
        self.text.parse().map_err(|_| self.wrong(Why::Number))
    }
}

// The words of a line, with spaces between.
// Not by `split_whitespace`: an answer tells at which byte a word stands.
pub(crate) fn words<'a>(heap: Global, line: &'a str) -> Result<Vec<Word<'a>>, AllocError> {
    let mut words = Vec::new(heap);
    let mut place = 0usize;
    for text in line.split(' ') {
        if !text.is_empty() {
            words.push(Word { place, text })?;
        }
        place = place.saturating_add(text.len()).saturating_add(1);
    }
    Ok(words)
}
