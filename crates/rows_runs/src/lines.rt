//! The lines of a row: a word that says what the line is, and what follows it.

/// The first word of a line, and what stands behind the space that follows it.
pub fn parted(line: &str) -> (&str, &str) {
    line.split_once(" ").unwrap_or((line, ""))
}

/// What stands behind this word in the first of the lines that begins with it.
pub fn value_of<'a>(lines: &'a str, wanted: &str) -> Option<&'a str> {
    for line in lines.split("\n") {
        let (word, value) = parted(line);
        if word == wanted {
            return Some(value);
        }
    }
    None
}

/// A number, 0 where there is none.
pub fn number(text: &str) -> usize {
    text.parse::<usize>().unwrap_or(0)
}
