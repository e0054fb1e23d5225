//! Rules of each form, texts outside the grammar, and attributes that come from defaults and rules.
use crate::{Sheet, StyleFault};
use cell_grid::{Attrs, Colour};
use sequences::Text;
use std::alloc::Global;
use std::test::Fail;

/// Returns the sheet of these rules, or why they were refused.
fn read(alloc: Global, rules: &str) -> Result<Sheet, StyleFault> {
    let rules = Text::read_str(alloc, rules)?;
    Sheet::from_rules(alloc, &rules)
}

/// Returns the attributes of a class in the sheet of these rules, or why they were refused.
fn styled(alloc: Global, rules: &str, class: &str) -> Result<Attrs, StyleFault> {
    let mut sheet = read(alloc, rules)?;
    Ok(sheet.attrs_of(class))
}

/// Returns attributes with these colours and no other.
fn coloured(fg: Option<Colour>, bg: Option<Colour>) -> Attrs {
    Attrs {
        fg,
        bg,
        ..Attrs::plain()
    }
}

/// Returns attributes with a flag of this number on, from bold to strike.
fn flagged(number: usize) -> Attrs {
    Attrs {
        bold: number == 0,
        italic: number == 1,
        underline: number == 2,
        blink: number == 3,
        reverse: number == 4,
        hidden: number == 5,
        strike: number == 6,
        ..Attrs::plain()
    }
}

#[test]
fn bad_style(rt: HostRuntime) {
    let refused = [
        ("prompt=bold;promt=bold", 1),
        // no rule where one should be
        (";", 0),
        ("prompt=bold;", 1),
        (";prompt=bold", 0),
        ("prompt=bold;;selected=bold", 1),
        ("prompt", 0),
        ("prompt=", 0),
        ("=bold", 0),
        // spaces
        (" prompt=bold", 0),
        ("prompt =bold", 0),
        ("prompt= bold", 0),
        ("prompt=bold  italic", 0),
        ("prompt=bold ", 0),
        ("prompt=bold; selected=bold", 1),
        // class names
        ("completion-menu.completion.other=bold", 0),
        ("Prompt=bold", 0),
        ("prompt.x=bold", 0),
        ("auto-suggestion=bold;toolbar=bold;=", 1),
        // words
        ("prompt=Bold", 0),
        ("prompt=nonobold", 0),
        ("prompt=no", 0),
        ("prompt=nofg:red", 0),
        ("prompt=bold=italic", 0),
        ("prompt=strikeé", 0),
        ("prompt=bold;é=bold;;", 1),
        ("prompt=bold\u{ff1b}selected=bold", 0),
        ("prompt=bo\u{16c}d", 0),
        // colours
        ("prompt=fg:", 0),
        ("prompt=fg:#", 0),
        ("prompt=fg:#12345", 0),
        ("prompt=fg:#1234567", 0),
        ("prompt=fg:#12345A", 0),
        ("prompt=fg:#12345g", 0),
        ("prompt=fg:123456", 0),
        ("prompt=fg:orange", 0),
        ("prompt=fg:bright-", 0),
        ("prompt=fg:bright-default", 0),
        ("prompt=fg:bright-bright-red", 0),
        ("prompt=fg:7", 0),
        ("prompt=underline;selected=bg:Red;prompt=x", 1),
    ];
    for (rules, at) in refused {
        let found = read(rt.alloc(), rules).map(|_sheet| ());
        assert_eq!(rt; found, Err(StyleFault::BadStyle { at }), "at {rules:?}");
    }
}

#[test]
fn words(rt: HostRuntime) -> Result<(), Fail> {
    let words = [
        "bold",
        "italic",
        "underline",
        "blink",
        "reverse",
        "hidden",
        "strike",
    ];
    for (number, word) in words.iter().enumerate() {
        let on = format!(in rt.alloc(); "prompt={word}")?;
        assert_eq!(rt;
            styled(rt.alloc(), on.as_str(), "prompt"),
            Ok(flagged(number)),
            "at {on}"
        );
        let off = format!(in rt.alloc(); "prompt={word};prompt=no{word}")?;
        assert_eq!(rt;
            styled(rt.alloc(), off.as_str(), "prompt"),
            Ok(Attrs::plain()),
            "at {off}"
        );
    }
    Ok(())
}

#[test]
fn colours(rt: HostRuntime) -> Result<(), Fail> {
    let names = [
        ("default", None),
        ("black", Some(Colour::Ansi(0))),
        ("red", Some(Colour::Ansi(1))),
        ("green", Some(Colour::Ansi(2))),
        ("yellow", Some(Colour::Ansi(3))),
        ("blue", Some(Colour::Ansi(4))),
        ("magenta", Some(Colour::Ansi(5))),
        ("cyan", Some(Colour::Ansi(6))),
        ("white", Some(Colour::Ansi(7))),
        ("bright-black", Some(Colour::Ansi(8))),
        ("bright-red", Some(Colour::Ansi(9))),
        ("bright-green", Some(Colour::Ansi(10))),
        ("bright-yellow", Some(Colour::Ansi(11))),
        ("bright-blue", Some(Colour::Ansi(12))),
        ("bright-magenta", Some(Colour::Ansi(13))),
        ("bright-cyan", Some(Colour::Ansi(14))),
        ("bright-white", Some(Colour::Ansi(15))),
        ("#000000", Some(Colour::Rgb(0, 0, 0))),
        ("#09afff", Some(Colour::Rgb(9, 175, 255))),
    ];
    for (name, colour) in names {
        let fg = format!(in rt.alloc(); "prompt=bg:green fg:{name}")?;
        let wanted = coloured(colour, Some(Colour::Ansi(2)));
        assert_eq!(rt;
            styled(rt.alloc(), fg.as_str(), "prompt"),
            Ok(wanted),
            "at {fg}"
        );
        let bg = format!(in rt.alloc(); "prompt=fg:green bg:{name}")?;
        let wanted = coloured(Some(Colour::Ansi(2)), colour);
        assert_eq!(rt;
            styled(rt.alloc(), bg.as_str(), "prompt"),
            Ok(wanted),
            "at {bg}"
        );
    }
    Ok(())
}

#[test]
fn defaults(rt: HostRuntime) {
    let menu = coloured(Some(Colour::Ansi(0)), Some(Colour::Ansi(7)));
    let current = Attrs {
        reverse: true,
        ..menu
    };
    let classes = [
        ("prompt", Attrs::plain()),
        ("continuation", Attrs::plain()),
        ("right-prompt", Attrs::plain()),
        ("arg-toolbar", Attrs::plain()),
        ("search-toolbar", Attrs::plain()),
        ("control-character", coloured(Some(Colour::Ansi(4)), None)),
        ("selected", flagged(4)),
        ("bottom-toolbar", flagged(4)),
        ("auto-suggestion", coloured(Some(Colour::Ansi(8)), None)),
        ("completion-menu", menu),
        ("completion-menu.completion", menu),
        ("completion-menu.completion.current", current),
        (
            "validation-toolbar",
            coloured(Some(Colour::Ansi(7)), Some(Colour::Ansi(1))),
        ),
        // names that are not in use
        ("", Attrs::plain()),
        (".", Attrs::plain()),
        ("other", Attrs::plain()),
        ("other.selected", Attrs::plain()),
        ("selected.other", flagged(4)),
        ("completion-menu.", menu),
        ("completion-menu.completion.current.other", current),
    ];
    for (class, attrs) in classes {
        assert_eq!(rt; styled(rt.alloc(), "", class), Ok(attrs), "at {class:?}");
    }
}

#[test]
fn cascade(rt: HostRuntime) {
    let menu =
        "completion-menu.completion=bg:red;completion-menu=bg:green bold;completion-menu.completion=bg:blue nobold;completion-menu=italic";
    let rows = [
        ("prompt=bold italic nobold", "prompt", flagged(1)),
        ("selected=noreverse bold", "selected", flagged(0)),
        ("selected=bold;selected=nobold", "selected", flagged(4)),
        (
            "auto-suggestion=fg:default",
            "auto-suggestion",
            Attrs::plain(),
        ),
        ("prompt=bold", "continuation", Attrs::plain()),
        ("prompt=bold", "prompt.part", flagged(0)),
        // a rule for a prefix and for the whole name, twice
        (
            menu,
            "completion-menu",
            Attrs {
                bold: true,
                italic: true,
                ..coloured(Some(Colour::Ansi(0)), Some(Colour::Ansi(2)))
            },
        ),
        (
            menu,
            "completion-menu.completion",
            Attrs {
                italic: true,
                ..coloured(Some(Colour::Ansi(0)), Some(Colour::Ansi(4)))
            },
        ),
        // the default of a longer name comes behind the rules for a prefix
        (
            "completion-menu=noreverse",
            "completion-menu.completion.current",
            Attrs {
                reverse: true,
                ..coloured(Some(Colour::Ansi(0)), Some(Colour::Ansi(7)))
            },
        ),
    ];
    for (rules, class, attrs) in rows {
        assert_eq!(rt;
            styled(rt.alloc(), rules, class),
            Ok(attrs),
            "at {class} in {rules}"
        );
    }
}

#[test]
fn asks_again(rt: HostRuntime) -> Result<(), Fail> {
    let mut sheet = read(rt.alloc(), "completion-menu=bold").expect(&rt, "a sheet");
    let menu = Attrs {
        bold: true,
        ..coloured(Some(Colour::Ansi(0)), Some(Colour::Ansi(7)))
    };
    // more classes than are kept, and all of them again
    for number in 0..140 {
        let class = format!(in rt.alloc(); "completion-menu.{}", number % 70)?;
        assert_eq!(rt; sheet.attrs_of(class.as_str()), menu, "at {class}");
        assert_eq!(rt; sheet.attrs_of("selected"), flagged(4));
    }
    Ok(())
}

#[test]
fn tells_faults(rt: HostRuntime) -> Result<(), Fail> {
    let sentences = [
        (StyleFault::BadStyle { at: 0 }, "rule 0 is no style rule"),
        (StyleFault::BadStyle { at: 12 }, "rule 12 is no style rule"),
        (StyleFault::NoMemory, "no memory for the style rules"),
    ];
    for (fault, sentence) in sentences {
        let told = format!(in rt.alloc(); "{fault}")?;
        assert_eq!(rt; told.as_str(), sentence);
    }
    Ok(())
}
