use std::io;

// Each word, with spaces between.
pub fn show_words(to: &impl Print, words: &[u16]) -> io::Result<()> {
    if let Some((first, others)) = words.split_first() {
        print!(to; "{first}")?;
        show_spaced(to, others)?;
    }
    Ok(())
}

// Each word, with a space before it.
pub fn show_spaced(to: &impl Print, words: &[u16]) -> io::Result<()> {
    for word in words {
        print!(to; " {word}")?;
    }
    Ok(())
}

// The nodes that have a mark, each with its mark, with spaces between; before the first stands what is given.
pub fn show_marks(to: &impl Print, first: &str, marks: &[u16]) -> io::Result<()> {
    let mut before = first;
    for (node, mark) in marks.iter().enumerate() {
        if *mark != 0 {
            print!(to; "{before}{node}:{mark}")?;
            before = " ";
        }
    }
    Ok(())
}
