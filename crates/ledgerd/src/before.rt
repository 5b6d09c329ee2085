//! What stands before the command.

/// What stands before the command.
#[derive(Clone, Copy)]
pub struct Before<'a> {
    /// The folder whose files are named; none where it is the current one.
    pub folder: Option<&'a str>,
    pub is_quiet: bool,
}

/// What stands before the command, `-C FOLDER` and `--quiet` each at most once, and the words from the command on.
pub fn split_before<'a>(words: &'a [String]) -> (Before<'a>, &'a [String]) {
    let mut before = Before {
        folder: None,
        is_quiet: false,
    };
    let mut rest = words;
    for _ in 0..2 {
        match rest {
            [word, behind @ ..] if word.as_str() == "--quiet" && !before.is_quiet => {
                before.is_quiet = true;
                rest = behind;
            }
            [word, folder, behind @ ..] if word.as_str() == "-C" && before.folder.is_none() => {
                before.folder = Some(folder.as_str());
                rest = behind;
            }
            _ => return (before, rest),
        }
    }
    (before, rest)
}
