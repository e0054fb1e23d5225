//! A script from its first line to its last, and what it prints.
ghost use Rattle.std.specs.Prelude.{◌≡◌, ◌+◌, ◌<◌, ◌≤◌, ◌^◌, ◌++◌, ◌&&◌, ◌==◌, length, None, if◌then◌else◌, is_some, flat_map, IfOk, OnOk};
ghost use Rattle.script_lines.specs.Lines.{script_lines};
ghost use Rattle.script_lines.specs.ScriptLine.{script_line};
ghost use Rattle.prompt_run.specs.Given.{nothing_given};
ghost use Rattle.prompt_run.specs.Play.{Play, begun, played};
ghost use Rattle.prompt_run.specs.Playing.{Finishes, Holds, PlaysLine, PlaysLines, SetsLine};
ghost use Rattle.prompt_run.specs.Replay.{Closes, IsOutput};
ghost use Rattle.prompt_run.specs.Script.{answer_row, closing, configured, output, refusal, status_row};

use crate::openings::{Opening, new_opening, set};
use crate::players::Player;
use crate::readers::MAX_SCRIPT;
use crate::reports::write_screen;
use crate::statuses::{REFUSED_LINE, Status};
use script_lines::{ScriptLine, cut_line, read_line, write_spelling};
use session_core::Event;
use std::alloc::Global;
use text_doc::{Lines, NoMemory, Text};

/// Plays a script. Answers what it prints, or with `frames` the bytes of its frames, and its status.
pub fn play(alloc: Global, script: &[u8], frames: bool) -> Result<(Vec<u8>, Status), NoMemory>
    ensures output { IfOk result (λ printed. IsOutput frames script.now printed.0.items) }
    ensures status { IfOk result (λ printed. printed.1 ≡ (output script.now).1) }
{
    let long = script.len() > MAX_SCRIPT;
    let (opening, rest, number) = read_opening(alloc, script, long)?;
    let mut player = Player::begin(alloc, opening, frames)?;
    let refused = play_lines(alloc, &mut player, rest, number, long)?;
    let (printed, status) = close(player, refused)?;
    Ok((printed, status))
}

/// Reads the lines that set something, from the first on. Returns what they give, what stands behind those lines, and the number
/// of the first line there.
fn read_opening(
    alloc: Global,
    script: &[u8],
    long: bool,
) -> Result<(Opening, &[u8], usize), NoMemory>
    ensures configured { IfOk result (λ read. configured long (script_lines script.now)
        nothing_given 1
        ≡ played long (script_lines read.1.now) (begun read.0) read.2) }
    ensures few { IfOk result (λ read. read.2 + length read.1.now ≤ 1 + length script.now) }
{
    let mut opening = new_opening(alloc)?;
    let mut rest = script;
    let mut number = 1usize;
    while !rest.is_empty() {
        let (line, behind) = cut_line(rest);
        let past = is_past(long, behind);
        if !set_line(alloc, &mut opening, line, past)? {
            return Ok((opening, rest, number));
        }
        rest = behind;
        number += 1;
    }
    Ok((opening, rest, number))
}

/// Plays the lines behind the settings, of which the first has this number. Answers the number of the line that is refused, if
/// one is.
fn play_lines(
    alloc: Global,
    player: &mut Player,
    lines: &[u8],
    first: usize,
    long: bool,
) -> Result<Option<usize>, NoMemory>
    requires playing { (p : Play) × Holds player.old p }
    requires few { first + length lines.now < 2 ^ 64 }
    ensures plays { IfOk result (λ refused. (p : Play) → Holds player.old p
        → PlaysLines long (script_lines lines.now) first p refused player.new) }
    ensures frames { OnOk result (is_some player.new.screen.frames
        ≡ is_some player.old.screen.frames) }
{
    let mut rest = lines;
    let mut number = first;
    while !rest.is_empty() {
        let (line, behind) = cut_line(rest);
        let past = is_past(long, behind);
        if !play_line(alloc, player, line, past)? {
            return Ok(Some(number));
        }
        rest = behind;
        number += 1;
    }
    Ok(None)
}

/// Tells whether the line before these bytes passes the most bytes of a script: it is the last one of a script that is
/// too long.
fn is_past(long: bool, behind: &[u8]) -> bool
    ensures { result ≡ (long && (length behind.now == 0)) }
{
    long && behind.is_empty()
}

/// Sets what a line says, and answers whether it is a line that sets something. The line that passes the most bytes of a
/// script says nothing.
fn set_line(alloc: Global, opening: &mut Opening, line: &[u8], past: bool) -> Result<bool, NoMemory>
    ensures sets { IfOk result (λ sets. SetsLine sets opening.old
        (if past then None else script_line line.now) opening.new) }
{
    if past {
        return Ok(false);
    }
    match read_line(alloc, line)? {
        Some(ScriptLine::Set { name, value }) => set(opening, name.as_str(), value),
        _ => Ok(false),
    }
}

/// Plays one line behind the settings, and answers whether it is in the grammar there.
fn play_line(alloc: Global, player: &mut Player, line: &[u8], past: bool) -> Result<bool, NoMemory>
    requires playing { (p : Play) × Holds player.old p }
    ensures plays { IfOk result (λ fits. (p : Play) → Holds player.old p
        → PlaysLine fits p (if past then None else script_line line.now) player.new) }
    ensures frames { OnOk result (is_some player.new.screen.frames
        ≡ is_some player.old.screen.frames) }
{
    if past {
        return Ok(false);
    }
    let said = match read_line(alloc, line)? {
        Some(said) => said,
        None => return Ok(false),
    };
    match said {
        ScriptLine::Piece(bytes) => player.take(Event::Piece(bytes))?,
        ScriptLine::Tick(moment) => player.take(Event::Tick(moment))?,
        ScriptLine::Resize(size) => player.take(Event::Resize(size))?,
        ScriptLine::End => player.take(Event::End)?,
        ScriptLine::Show => player.report()?,
        ScriptLine::Set { .. } => return Ok(false),
    }
    Ok(true)
}

/// Ends a script behind its last line, or behind those before the line that was refused. Answers what is put on the sink, and the
/// status.
fn close(player: Player, refused: Option<usize>) -> Result<(Vec<u8>, Status), NoMemory>
    requires playing { (p : Play) × Holds player p }
    ensures closes { IfOk result (λ printed. (p : Play) → Holds player p
        → Closes (is_some player.screen.frames) p refused printed.0.items printed.1) }
{
    let mut player = player;
    let status = finish(&mut player, refused)?;
    match player.screen.frames.take() {
        Some(frames) => Ok((frames.into_vec(), status)),
        None => {
            let reports = std::mem::replace(&mut player.reports, Vec::new(player.runner.alloc));
            Ok((reports, status))
        }
    }
}

/// Gives the end of the input where no line was refused, and puts what is printed last behind the reports so far. Answers the
/// status.
fn finish(player: &mut Player, refused: Option<usize>) -> Result<Status, NoMemory>
    requires playing { (p : Play) × Holds player.old p }
    ensures finishes { IfOk result (λ status. (p : Play) → Holds player.old p
        → Finishes p refused player.new status) }
    ensures frames { OnOk result (is_some player.new.screen.frames
        ≡ is_some player.old.screen.frames) }
{
    match refused {
        Some(number) => {
            write_refusal(&mut player.reports, number)?;
            Ok(REFUSED_LINE)
        }
        None => {
            player.take(Event::End)?;
            write_closing(player)?;
            Ok(player.status())
        }
    }
}

/// Puts the last report, the accepted lines and the status behind the reports so far.
fn write_closing(player: &mut Player) -> Result<(), NoMemory>
    ensures closing { OnOk result ((p : Play) → Holds player.old p → player.new.reports.items
        ≡ p.reports ++ closing p) }
    ensures same { OnOk result (player.new ≡ record player.old { reports = player.new.reports }) }
{
    let status = player.status();
    write_screen(&mut player.reports, &player.screen.terminal)?;
    write_answers(&mut player.reports, &player.runner.answers)?;
    write_status(&mut player.reports, status)?;
    Ok(())
}

/// Puts a line for each answer behind what was written.
fn write_answers(out: &mut Vec<u8>, answers: &Lines) -> Result<(), NoMemory>
    ensures answers { OnOk result (out.new.items ≡ out.old.items
        ++ flat_map answer_row answers.now) }
{
    for answer in answers.as_slice() {
        write_answer(out, answer)?;
    }
    Ok(())
}

/// Puts the line of an answer behind what was written.
fn write_answer(out: &mut Vec<u8>, answer: &Text) -> Result<(), NoMemory>
    ensures answer { OnOk result (out.new.items ≡ out.old.items ++ answer_row answer.now) }
{
    let bytes = answer.to_utf8()?;
    out.extend_from_slice(b"answer ")?;
    write_spelling(out, bytes.as_slice())?;
    out.push(b'\n')?;
    Ok(())
}

/// Puts the line of a status behind what was written.
fn write_status(out: &mut Vec<u8>, status: Status) -> Result<(), NoMemory>
    ensures status { OnOk result (out.new.items ≡ out.old.items ++ status_row status) }
{
    let alloc = *out.allocator();
    let line = format!(in alloc; "status {status}\n")?;
    out.extend_from_slice(line.as_bytes())?;
    Ok(())
}

/// Puts what is printed where the line of this number is refused behind what was written.
fn write_refusal(out: &mut Vec<u8>, number: usize) -> Result<(), NoMemory>
    ensures refusal { OnOk result (out.new.items ≡ out.old.items ++ refusal number) }
{
    let alloc = *out.allocator();
    let line = format!(in alloc; "refused {number}\n")?;
    out.extend_from_slice(line.as_bytes())?;
    write_status(out, REFUSED_LINE)?;
    Ok(())
}
