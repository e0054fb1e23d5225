//! Frames by their exact bytes, and many of them against the terminal model.
ghost use Rattle.std.specs.Prelude.{◌<◌, OnOk};
ghost use Rattle.cell_grid.specs.Cell.{IsLead};
ghost use Rattle.diff_render.specs.Frames.{WasDrawnAt};

use crate::{Shown, frame};
use cell_grid::{Attrs, Cell, CellText, Colour, Drawing, Grid, Size};
use std::alloc::Global;
use std::test::Fail;
use term_model::Terminal;
use text_doc::Bytes;

/// The frame of a drawing, where it can be drawn.
fn frame_of(
    alloc: Global,
    shown: &mut Shown,
    drawing: &Drawing,
    size: Size,
    done: bool,
    ask: bool,
) -> Result<Bytes, Fail>
    requires { WasDrawnAt size shown.old }
    ensures { OnOk result (WasDrawnAt size shown.new) }
{
    let grid = &drawing.grid;
    if grid.cols() != size.cols() || grid.rows() > size.rows() {
        return Err("another size".into());
    }
    if drawing.row >= grid.rows() || drawing.col >= grid.cols() {
        return Err("no cursor".into());
    }
    if !grid.is_drawable() {
        return Err("not drawable".into());
    }
    let bytes = frame(alloc, shown, drawing, size, done, ask)?;
    Ok(bytes)
}

/// A grid with these rows of narrow characters in one pen.
fn grid_of(alloc: Global, rows: &[&str], cols: u32, attrs: Attrs) -> Result<Grid, Fail> {
    if rows.is_empty() || rows.len() > 500 || cols == 0 || cols > 1000 {
        return Err("no such grid".into());
    }
    let mut grid = Grid::blank(alloc, rows.len() as u32, cols)?;
    for (row, text) in (0..500u32).zip(rows) {
        for (col, c) in (0..1000u32).zip(text.chars()) {
            if c != ' ' && row < grid.rows() && col < grid.cols() {
                grid.put(row, col, Cell::narrow(c, attrs));
            }
        }
    }
    Ok(grid)
}

fn plain_drawing(alloc: Global, rows: &[&str], row: u32, col: u32) -> Result<Drawing, Fail> {
    let grid = grid_of(alloc, rows, 80, Attrs::plain())?;
    Ok(Drawing { grid, row, col })
}

/// The bytes that turn the second drawing of a prompt into a third one.
fn turn(alloc: Global, from: &Drawing, to: &Drawing) -> Result<Bytes, Fail> {
    let size = Size::new(24, 80).ok_or("no such size")?;
    let mut shown = Shown::nothing();
    frame_of(alloc, &mut shown, from, size, false, false)?;
    frame_of(alloc, &mut shown, to, size, false, false)
}

#[test]
fn spells_small_changes_with_few_bytes(rt: HostRuntime) -> Result<(), Fail> {
    let alloc = rt.alloc();
    let cases = [
        ("> hello", 7, "> hellox", 8, "x"),
        ("> hello", 7, "> hell", 6, "\x1b[D\x1b[K"),
        ("> hello w", 9, "> hello ", 8, "\x1b[D\x1b[K"),
        ("> a", 3, "> ", 2, "\x1b[D\x1b[K"),
        ("> hello", 7, "> hello", 6, "\x1b[D"),
        ("> hello", 7, "> hello", 7, ""),
        ("> hello", 7, "> hello", 57, "\x1b[50C"),
        ("> hello", 7, "> hello", 0, "\r"),
        (
            "> abcdefghijklmnopqrst",
            2,
            "> Xabcdefghijklmnopqrst",
            3,
            "Xabcdefghijklmnopqrst\x1b[20D",
        ),
    ];
    for (before, from, after, to, bytes) in cases {
        let old = plain_drawing(alloc, &[before], 0, from)?;
        let new = plain_drawing(alloc, &[after], 0, to)?;
        let got = turn(alloc, &old, &new)?;
        assert!(rt; got.as_slice() == bytes.as_bytes(), "{after}");
    }
    Ok(())
}

/// A text of so many letters that wraps, with the cursor behind one of them. An `X` stands among them at
/// a place, if there is such a place.
fn letters(alloc: Global, count: u32, at: u32, inserted: u32) -> Result<Drawing, Fail> {
    let rows = count / 80 + 1;
    if rows > 24 || at > count {
        return Err("too many letters".into());
    }
    let mut grid = Grid::blank(alloc, rows, 80)?;
    for place in 0..count {
        let (row, col) = (place / 80, place % 80);
        let c = match place {
            _ if place == inserted => 'X',
            _ if place > inserted => char::from(b'a' + ((place - 1) % 26) as u8),
            _ => char::from(b'a' + (place % 26) as u8),
        };
        if row < grid.rows() && col < grid.cols() {
            grid.put(row, col, Cell::narrow(c, Attrs::plain()));
        }
    }
    Ok(Drawing {
        grid,
        row: at / 80,
        col: at % 80,
    })
}

/// How many bytes lead from letters to others, with or without an inserted one.
fn letters_cost(alloc: Global, from: (u32, u32), to: (u32, u32, u32)) -> Result<usize, Fail> {
    let old = letters(alloc, from.0, from.1, 1000)?;
    let new = letters(alloc, to.0, to.1, to.2)?;
    Ok(turn(alloc, &old, &new)?.len())
}

#[test]
fn wraps_and_kills_with_few_bytes(rt: HostRuntime) -> Result<(), Fail> {
    let alloc = rt.alloc();
    assert!(rt; letters_cost(alloc, (79, 79), (80, 80, 1000))? == 3);
    assert!(rt; letters_cost(alloc, (190, 20), (20, 20, 1000))? == 3);
    assert!(rt; letters_cost(alloc, (140, 40), (141, 41, 40))? <= 111);
    let mut sum = 0usize;
    for count in 0..200 {
        sum = sum.saturating_add(letters_cost(
            alloc,
            (count, count),
            (count + 1, count + 1, 1000),
        )?);
    }
    assert!(rt; sum <= 204);
    Ok(())
}

#[test]
fn tells_the_row_of_what_is_shown(rt: HostRuntime) -> Result<(), Fail> {
    let alloc = rt.alloc();
    let size = Size::new(24, 80).ok_or("no such size")?;
    let mut shown = Shown::nothing();
    assert!(rt; shown.row() == None);
    let drawing = plain_drawing(alloc, &["a", "b"], 1, 0)?;
    frame_of(alloc, &mut shown, &drawing, size, false, false)?;
    assert!(rt; shown.row() == Some(1));
    shown.forget_size();
    assert!(rt; shown.row() == Some(1));
    frame_of(alloc, &mut shown, &drawing, size, true, false)?;
    assert!(rt; shown.row() == None);
    Ok(())
}

#[test]
fn begins_and_ends_a_prompt(rt: HostRuntime) -> Result<(), Fail> {
    let alloc = rt.alloc();
    let size = Size::new(24, 80).ok_or("no such size")?;
    let prompt = plain_drawing(alloc, &[">"], 0, 2)?;
    let mut shown = Shown::nothing();
    let first = frame_of(alloc, &mut shown, &prompt, size, false, true)?;
    let opening = "\r\x1b[m\x1b[J\x1b[?7l\x1b[?2004h\x1b[?25h\x1b[6n>\x1b[C";
    assert!(rt; first.as_slice() == opening.as_bytes());
    let second = frame_of(alloc, &mut shown, &prompt, size, false, true)?;
    assert!(rt; second.is_empty());
    let last = frame_of(alloc, &mut shown, &prompt, size, true, true)?;
    assert!(rt; last.as_slice() == "\r\n\x1b[?7h\x1b[?2004l".as_bytes());
    Ok(())
}

/// A prompt with a menu of 16 items below it, one of which may be selected.
fn menu_drawing(alloc: Global, selected: u32) -> Result<Drawing, Fail> {
    let mut grid = grid_of(alloc, &["> "; 17], 80, Attrs::plain())?;
    let mut attrs = Attrs::plain();
    attrs.fg = Some(Colour::Ansi(0));
    attrs.bg = Some(Colour::Ansi(7));
    for item in 1..17u32 {
        attrs.reverse = item == selected;
        for (col, c) in (0..80u32).zip("  item a  ".chars()) {
            if item < grid.rows() && col < grid.cols() {
                let cell = if col < 2 {
                    Cell::blank()
                } else {
                    Cell::narrow(c, attrs)
                };
                grid.put(item, col, cell);
            }
        }
    }
    Ok(Drawing {
        grid,
        row: 0,
        col: 2,
    })
}

#[test]
fn draws_a_menu_with_few_bytes(rt: HostRuntime) -> Result<(), Fail> {
    let alloc = rt.alloc();
    let prompt = plain_drawing(alloc, &["> "], 0, 2)?;
    let menu = menu_drawing(alloc, 1)?;
    let next = menu_drawing(alloc, 2)?;
    assert!(rt; turn(alloc, &prompt, &menu_drawing(alloc, 0)?)?.len() <= 247);
    assert!(rt; turn(alloc, &menu, &next)?.len() <= 53);
    assert!(rt; turn(alloc, &next, &prompt)?.len() <= 12);
    Ok(())
}

#[test]
fn adds_to_a_pen_or_begins_it_anew(rt: HostRuntime) -> Result<(), Fail> {
    let alloc = rt.alloc();
    let size = Size::new(24, 80).ok_or("no such size")?;
    let mut red = Attrs::plain();
    red.fg = Some(Colour::Ansi(1));
    let mut bold = red;
    bold.bold = true;
    let mut reverse = Attrs::plain();
    reverse.reverse = true;
    let mut grid = Grid::blank(alloc, 1, 80)?;
    if grid.cols() == 80 && grid.rows() == 1 {
        grid.put(0, 0, Cell::narrow('a', red));
        grid.put(0, 1, Cell::narrow('b', bold));
        grid.put(0, 2, Cell::narrow('c', reverse));
    }
    let drawing = Drawing {
        grid,
        row: 0,
        col: 3,
    };
    let mut shown = Shown::nothing();
    let got = frame_of(alloc, &mut shown, &drawing, size, false, false)?;
    let opening = "\r\x1b[m\x1b[J\x1b[?7l\x1b[?2004h\x1b[?25h";
    let rest = "\x1b[31ma\x1b[1mb\x1b[;7mc\x1b[m";
    assert!(rt; got.as_slice().starts_with(opening.as_bytes()));
    assert!(rt; got.as_slice().ends_with(rest.as_bytes()));
    assert!(rt; got.len() == opening.len() + rest.len());
    Ok(())
}

/// Pseudo-random numbers, by Knuth's linear congruential generator.
#[derive(Drop)]
struct Random(u64);

impl Random {
    fn below(&mut self, n: u32) -> u32
        requires { 0 < n }
        ensures { result < n }
    {
        self.0 = self
            .0
            .wrapping_mul(6_364_136_223_846_793_005)
            .wrapping_add(1_442_695_040_888_963_407);
        ((self.0 >> 33) % u64::from(n)) as u32
    }

    fn attrs(&mut self) -> Attrs {
        let mut attrs = Attrs::plain();
        match self.below(8) {
            0 => attrs.bold = true,
            1 => attrs.reverse = true,
            2 => attrs.bg = Some(Colour::Ansi(12)),
            3 => attrs.fg = Some(Colour::Rgb(1, 20, 255)),
            _ => {}
        }
        attrs
    }

    fn cell(&mut self) -> Cell
        ensures { IsLead result }
    {
        let attrs = self.attrs();
        match self.below(6) {
            0 => Cell::blank(),
            1 => Cell::Lead {
                text: CellText::new('世'),
                width: 2,
                attrs,
            },
            2 => {
                let mut text = CellText::new('e');
                let _ = text.join('\u{301}');
                Cell::Lead {
                    text,
                    width: 1,
                    attrs,
                }
            }
            3 => Cell::narrow(' ', attrs),
            _ => Cell::narrow('x', attrs),
        }
    }

    fn size(&mut self) -> Option<Size> {
        let rows = 1 + self.below(8);
        Size::new(rows, 1 + self.below(20))
    }

    fn drawing(&mut self, alloc: Global, size: Size) -> Result<Drawing, Fail> {
        let rows = 1 + self.below(size.rows());
        let cols = size.cols();
        let mut grid = Grid::blank(alloc, rows, cols)?;
        for row in 0..500 {
            let len = self.below(cols + 1);
            for col in 0..1000 {
                let cell = self.cell();
                let room = cell.columns() <= grid.cols().saturating_sub(col) as usize;
                if row < grid.rows() && col < len && room {
                    grid.put(row, col, cell);
                } else if col >= len {
                    break;
                }
            }
            if row >= rows {
                break;
            }
        }
        Ok(Drawing {
            grid,
            row: self.below(rows),
            col: self.below(cols),
        })
    }
}

/// Whether the terminal shows the drawing from the base line on, and blanks behind it.
fn is_shown(terminal: &Terminal, base: usize, drawing: &Drawing, done: bool) -> bool {
    let blank = Cell::blank();
    let mut row = 0u32;
    for at in base..terminal.lines() {
        let line = terminal.line(at).as_slice();
        let same = if row < drawing.grid.rows() {
            line == drawing.grid.row(row)
        } else {
            line.iter().all(|cell| *cell == blank)
        };
        if !same {
            return false;
        }
        row = row.saturating_add(1);
    }
    let (row, col) = terminal.cursor();
    let line = terminal.top().saturating_add(row as usize);
    let place = if done {
        (base.saturating_add(drawing.grid.rows() as usize), 0)
    } else {
        (base.saturating_add(drawing.row as usize), drawing.col)
    };
    (line, col) == place && terminal.wraps() == done && terminal.marks_pastes() != done
}

/// A terminal with what a prompt shows on it.
#[derive(Drop)]
struct Screen {
    size: Size,
    terminal: Terminal,
    shown: Shown,
    base: usize,
    /// The cursor's row in the drawing that is shown, and whether its size was forgotten.
    row: usize,
    is_nothing: bool,
    is_resized: bool,
}

/// Takes another size, together with the terminal.
fn resize(screen: &mut Screen, size: Size) -> Result<(), Fail>
    ensures { OnOk result (WasDrawnAt screen.new.size screen.new.shown) }
{
    screen.terminal.resize(size)?;
    screen.size = size;
    screen.shown.forget_size();
    screen.is_resized = true;
    Ok(())
}

/// Draws, and says whether the terminal shows what was drawn.
fn draw(screen: &mut Screen, alloc: Global, drawing: &Drawing, done: bool) -> Result<bool, Fail>
    requires { WasDrawnAt screen.old.size screen.old.shown }
    ensures { OnOk result (WasDrawnAt screen.new.size screen.new.shown) }
{
    let top = screen.terminal.top();
    let line = top.saturating_add(screen.terminal.cursor().0 as usize);
    if screen.is_nothing {
        screen.base = line;
    } else if screen.is_resized {
        screen.base = top.max(line.saturating_sub(screen.row));
    }
    let size = screen.size;
    let bytes = frame_of(alloc, &mut screen.shown, drawing, size, done, false)?;
    screen.terminal.obey(bytes.as_slice())?;
    screen.row = drawing.row as usize;
    screen.is_nothing = done;
    screen.is_resized = false;
    Ok(is_shown(&screen.terminal, screen.base, drawing, done))
}

/// Draws many drawings on one terminal, and says whether it showed each of them.
fn draw_many(random: &mut Random, alloc: Global) -> Result<bool, Fail> {
    let size = random.size().ok_or("no such size")?;
    let mut screen = Screen {
        size,
        terminal: Terminal::start(alloc, size)?,
        shown: Shown::nothing(),
        base: 0,
        row: 0,
        is_nothing: true,
        is_resized: false,
    };
    for _ in 0..50 {
        let drawing = random.drawing(alloc, screen.size)?;
        if !draw(&mut screen, alloc, &drawing, random.below(10) == 0)? {
            return Ok(false);
        }
        if random.below(8) == 0 {
            let size = random.size().ok_or("no such size")?;
            resize(&mut screen, size)?;
        }
    }
    Ok(true)
}

#[test]
fn shows_what_was_drawn(rt: HostRuntime) -> Result<(), Fail> {
    let mut random = Random(1);
    for _ in 0..200 {
        assert!(rt; draw_many(&mut random, rt.alloc())?);
    }
    Ok(())
}

#[test]
fn erases_what_is_below(rt: HostRuntime) -> Result<(), Fail> {
    let alloc = rt.alloc();
    let menu = plain_drawing(alloc, &["> a", "apple", "anise"], 0, 3)?;
    let line = plain_drawing(alloc, &["> a"], 0, 3)?;
    let got = turn(alloc, &menu, &line)?;
    assert!(rt; got.as_slice() == "\n\r\x1b[J\x1b[A\x1b[3C".as_bytes());
    Ok(())
}
