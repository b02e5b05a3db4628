//! The marks of a case file.

/// What a line of a case file says, by the mark that it begins with.
#[derive(Clone, Copy, PartialEq, Eq)]
pub enum Mark {
    /// `#`: it says nothing.
    Comment,
    /// `=`: a case begins, and has this title.
    Case,
    /// `+`: a file of this name is there. An index text that neither this nor `-` names isn't looked at.
    File,
    /// `|`: a line of that file.
    Line,
    /// `-`: no file of this name is there.
    NoFile,
    /// `$`: a command is run.
    Command,
    /// `<`: a line of its input.
    Input,
    /// `>`: a line of its output.
    Output,
    /// `!`: a line of its messages.
    Message,
    /// `:`: a line that it tells behind its messages, with `-v`.
    Told,
    /// `?`: its exit status.
    Status,
    /// `*`: what fails while it runs, or is in use.
    Trouble,
}

impl Mark {
    /// The mark that is spelled so.
    pub fn of(text: &str) -> Option<Mark> {
        match text {
            "#" => Some(Mark::Comment),
            "=" => Some(Mark::Case),
            "+" => Some(Mark::File),
            "|" => Some(Mark::Line),
            "-" => Some(Mark::NoFile),
            "$" => Some(Mark::Command),
            "<" => Some(Mark::Input),
            ">" => Some(Mark::Output),
            "!" => Some(Mark::Message),
            ":" => Some(Mark::Told),
            "?" => Some(Mark::Status),
            "*" => Some(Mark::Trouble),
            _ => None,
        }
    }
}
