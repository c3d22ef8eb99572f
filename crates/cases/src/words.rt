// The words of a line, parted by single spaces, and words as numbers.
// Any bytes may come; a word that is not there is none, and one that is no number too. Assumes nothing.

// The first of some words, and the others.
pub(crate) fn parted<'a>(words: &'a [u8]) -> Option<(&'a [u8], &'a [u8])> {
    let end = words.iter().position(|byte| *byte == b' ')?;
    Some((&words[..end], &words[end + 1..]))
}

// Words as numbers, where they are so many and each is one.
pub(crate) fn numbers_of<const N: usize>(words: &[u8]) -> Option<[u32; N]> {
    let mut left = words.split(|byte| *byte == b' ');
    let mut numbers = [0; N];
    for number in &mut numbers {
        *number = number_of(left.next()?)?;
    }
    match left.next() {
        Some(_) => None,
        None => Some(numbers),
    }
}

// A word of digits as a number, whatever zeros it starts with.
pub(crate) fn number_of(word: &[u8]) -> Option<u32> {
    if !word.iter().all(|byte| byte.is_ascii_digit()) {
        return None;
    }
    str::from_utf8(word).ok()?.parse().ok()
}
