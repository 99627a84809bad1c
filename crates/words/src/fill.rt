// The words of a line where there is no heap: as many as a caller has room for.
ghost use Rattle.std.specs.Prelude.{◌≡◌, map, take};
ghost use Rattle.words.specs.Words.{words_between};

use arrayvec::ArrayVec;

// The first words of a text, which blanks stand between: they stand in place of what the list had.
pub fn fill_words<'a, const N: usize>(
    text: &'a [u8],
    blanks: &[u8],
    words: &mut ArrayVec<&'a [u8], N>,
)
    ensures { map (λ word. word.now) words.new.items ≡ take N (words_between blanks.now text.now) }
{
    words.clear();
    let all = text
        .split(|byte| blanks.contains(byte))
        .filter(|word| !word.is_empty());
    // there is room for all that come
    let _ = words.extend(all.take(N));
}
