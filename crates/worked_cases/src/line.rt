// A line of the cases.

/// What a line says. The lines of a file, of a text and of a note have the escapes of `text`.
pub(crate) enum Line<'a> {
    /// An empty line, or one that begins with `#`.
    Nothing,
    /// `shelf`: no file is left of the cases before.
    Shelf,
    /// `file NAME`: a file of this name, in place of one before; its lines follow.
    File(&'a str),
    /// `without NAME`: the file of this name is gone.
    Without(&'a str),
    /// `| TEXT`: a line of the file.
    Held(&'a str),
    /// `$ WORDS`: the words are run once.
    Once(&'a str),
    /// `$* WORDS`: the words are run as they stand, and behind them with each number of workers.
    Each(&'a str),
    /// `> TEXT`: a line of what is written to the output.
    Written(&'a str),
    /// `! TEXT`: a line of what is written to the notes.
    Noted(&'a str),
    /// `= STATUS CALLS FAULTS`: the number of the status, how often the shelf was called, and how
    /// often it failed. The case is run.
    Ends(&'a str),
    /// None of these.
    Unknown,
}

impl<'a> Line<'a> {
    /// What this line says.
    pub(crate) fn of(line: &'a str) -> Line<'a> {
        if line.is_empty() || line.starts_with('#') {
            return Line::Nothing;
        }
        let (word, rest) = line.split_once(' ').unwrap_or((line, ""));
        match word {
            "shelf" => Line::Shelf,
            "file" => Line::File(rest),
            "without" => Line::Without(rest),
            "|" => Line::Held(rest),
            "$" => Line::Once(rest),
            "$*" => Line::Each(rest),
            ">" => Line::Written(rest),
            "!" => Line::Noted(rest),
            "=" => Line::Ends(rest),
            _ => Line::Unknown,
        }
    }
}
