//! The options of the command, as a user reads of them.

/// An option that takes one value, or a flag.
pub struct CommandOption {
    /// Its name, behind two hyphens.
    pub name: &'static str,
    /// What stands for its value in the list of options. It is empty for a flag.
    pub value: &'static str,
    /// What it is for, and what holds without it.
    pub purpose: &'static str,
    /// Which values it may have.
    pub form: &'static str,
}

/// All options of the command.
pub const OPTIONS: [CommandOption; 10] = [
    CommandOption {
        name: "message",
        value: "TEXT",
        purpose: "what stands before the line (default: '> ')",
        form: "a text of at most 200 characters, none of them a control character",
    },
    CommandOption {
        name: "repeat",
        value: "COUNT",
        purpose: "how many lines to ask for, 1 to 100 (default: 1)",
        form: "a number of lines, 1 to 100",
    },
    CommandOption {
        name: "history",
        value: "PATH",
        purpose: "the file that keeps the lines (default: none is kept)",
        form: "the path of a file",
    },
    CommandOption {
        name: "default",
        value: "TEXT",
        purpose: "what each line begins with (default: nothing)",
        form: "a text of at most 32,768 characters",
    },
    CommandOption {
        name: "toolbar",
        value: "TEXT",
        purpose: "what stands in a row below (default: no such row)",
        form: "a text of 1 to 200 characters, none of them a control character",
    },
    CommandOption {
        name: "rprompt",
        value: "TEXT",
        purpose: "what stands at the right end (default: nothing)",
        form: "a text of 1 to 200 characters, none of them a control character",
    },
    CommandOption {
        name: "multiline",
        value: "",
        purpose: "return begins a new row; escape, return accepts",
        form: "a flag, without a value",
    },
    CommandOption {
        name: "no-wrap",
        value: "",
        purpose: "cut long rows at the edges of the screen",
        form: "a flag, without a value",
    },
    CommandOption {
        name: "password",
        value: "",
        purpose: "draw a star for each character",
        form: "a flag, without a value",
    },
    CommandOption {
        name: "size",
        value: "ROWSxCOLS",
        purpose: "draw for this size, and leave the terminal as it is\n                     (default: the terminal's own size, by stty)",
        form: "rows x columns, as 24x80",
    },
];

/// Returns the option that a word names, as `--size` and `--size=24x80` do.
pub fn option_of(word: &str) -> Option<&'static CommandOption> {
    let name = word.strip_prefix("--")?;
    let name = match name.split_once('=') {
        Some((name, _)) => name,
        None => name,
    };
    OPTIONS.iter().find(|option| option.name == name)
}
