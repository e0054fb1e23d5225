//! The terminal by `stty`, with programs and a clock that a test stands in for: which words are run, and what is made of the
//! answers.

use super::*;
use cell_grid::Size;
use events::{Event, Inbox, InboxFault};
use ports::Tty;
use std::alloc::{AllocError, Allocator, Global};
use std::cell::RefCell;
use std::io;
use std::io::{Cursor, Empty, ErrorKind, IsTerminal, Read, Write};
use std::os::unix::process::ExitStatusExt;
use std::process::{Child, Command, ExitStatus, OpenProcess, Processes, Stdio};
use std::rc::Rc;
use std::rt::Clock;
use std::test::Fail;
use std::time::Duration;

/// A program that has printed its answer and ends as it is told.
#[derive(Drop)]
struct Ended {
    number: usize,
    status: i32,
    record: Record,
}

impl OpenProcess for Ended {
    type Stdin = Words;

    type Stdout = Cursor<Vec<u8>>;

    type Stderr = Empty;

    fn id(&self) -> u32 {
        1
    }

    fn wait(&mut self) -> io::Result<ExitStatus> {
        let Ok(mut seen) = self.record.seen.try_borrow_mut() else {
            return Err(io::Error::from(ErrorKind::Other));
        };
        let number = self.number;
        write!(seen.course, "end {number};")?;
        Ok(ExitStatus::from_raw(self.status))
    }
}

/// The input of a program, whose words are kept in the course of a test.
#[derive(Drop)]
struct Words {
    record: Record,
}

impl Write for Words {
    fn write(&mut self, buf: &[u8]) -> io::Result<usize> {
        let Ok(mut seen) = self.record.seen.try_borrow_mut() else {
            return Err(io::Error::from(ErrorKind::Other));
        };
        seen.course.extend_from_slice(buf)?;
        Ok(buf.len())
    }

    fn flush(&mut self) -> io::Result<()> {
        Ok(())
    }
}

/// What was started, each program with its arguments, what was written to the terminal, and in which order programs were
/// told words and came to their ends.
#[derive(Drop)]
struct Seen {
    started: Vec<String>,
    written: Vec<u8>,
    course: Vec<u8>,
}

/// A record that a test keeps while others add to it.
#[derive(Drop)]
struct Record {
    seen: Rc<RefCell<Seen>>,
}

impl Record {
    fn new(alloc: Global) -> Result<Record, AllocError> {
        let seen = RefCell::new(Seen {
            started: Vec::new(alloc),
            written: Vec::new(alloc),
            course: Vec::new(alloc),
        });
        Ok(Record {
            seen: Rc::new(alloc, seen).map_err(AllocError::from)?,
        })
    }

    /// Returns another handle of the same record.
    fn share(&self) -> Result<Record, AllocError> {
        Ok(Record {
            seen: self.seen.clone()?,
        })
    }

    /// Tells whether the program with this number was started with these words.
    fn told(&self, number: usize, want: &str) -> bool {
        match self.seen.try_borrow() {
            Ok(seen) => match seen.started.get(number) {
                Some(line) => line.as_str() == want,
                None => false,
            },
            Err(_) => false,
        }
    }

    /// Tells whether some word of the program with this number has this part.
    fn asks(&self, number: usize, part: &str) -> bool {
        match self.seen.try_borrow() {
            Ok(seen) => match seen.started.get(number) {
                Some(line) => line.as_str().contains(part),
                None => false,
            },
            Err(_) => false,
        }
    }

    /// Tells whether programs were told words and ended in this order.
    fn has_course(&self, want: &[u8]) -> bool {
        match self.seen.try_borrow() {
            Ok(seen) => seen.course.as_slice() == want,
            Err(_) => false,
        }
    }

    /// Tells whether these bytes were written to the terminal.
    fn has_written(&self, want: &[u8]) -> bool {
        match self.seen.try_borrow() {
            Ok(seen) => seen.written.as_slice() == want,
            Err(_) => false,
        }
    }
}

impl Write for Record {
    fn write(&mut self, buf: &[u8]) -> io::Result<usize> {
        let Ok(mut seen) = self.seen.try_borrow_mut() else {
            return Err(io::Error::from(ErrorKind::Other));
        };
        seen.written.extend_from_slice(buf)?;
        Ok(buf.len())
    }

    fn flush(&mut self) -> io::Result<()> {
        Ok(())
    }
}

/// What a program prints, and the status that it ends with.
#[derive(Drop)]
struct Answer {
    status: i32,
    text: Vec<u8>,
}

/// A system whose programs answer in turn what stands in a list, and whose clock stands still.
#[derive(Drop)]
struct Stage {
    answers: Vec<Answer>,
    record: Record,
}

impl Stage {
    fn new(record: Record, alloc: Global, answers: &[(i32, &str)]) -> Result<Stage, AllocError> {
        let mut stage = Stage {
            answers: Vec::new(alloc),
            record,
        };
        for (status, text) in answers {
            stage.add(*status, text)?;
        }
        Ok(stage)
    }

    /// Adds the answer of one more program.
    fn add(&mut self, status: i32, text: &str) -> Result<(), AllocError> {
        let alloc = *self.answers.allocator();
        self.answers.push(Answer {
            status,
            text: Vec::from_slice(alloc, text.as_bytes())?,
        })?;
        Ok(())
    }
}

impl Clock for Stage {
    fn monotonic(&self) -> io::Result<Duration> {
        Ok(Duration::from_millis(5))
    }

    fn since_1970(&self) -> io::Result<Duration> {
        Ok(Duration::from_millis(1_700_000_000_123))
    }
}

impl Processes for Stage {
    type Started = Ended;

    fn spawn<B: Allocator + Clone>(
        &self,
        command: &Command<B>,
        _stdin: &Stdio,
        _stdout: &Stdio,
        _stderr: &Stdio,
    ) -> io::Result<Child<Ended>> {
        let Ok(mut seen) = self.record.seen.try_borrow_mut() else {
            return Err(io::Error::from(ErrorKind::Other));
        };
        let alloc = *seen.started.allocator();
        let number = seen.started.len();
        let mut line = String::from_str(alloc, command.get_program())?;
        for arg in command.get_args() {
            line.push_str("|")?;
            line.push_str(arg)?;
        }
        seen.started.push(line)?;
        match self.answers.get(number) {
            Some(answer) => {
                let child = Ended {
                    number,
                    status: answer.status,
                    record: self.record.share()?,
                };
                let words = Words {
                    record: self.record.share()?,
                };
                let printed = Cursor::new(Vec::from_slice(alloc, answer.text.as_slice())?);
                Ok(Child::from_parts(child, Some(words), Some(printed), None))
            }
            None => Err(io::Error::from(ErrorKind::NotFound)),
        }
    }
}

/// The words of a guard's shell.
const GUARD: &str = concat!(
    "trap '' INT TERM HUP QUIT TSTP TTIN TTOU PIPE; exec 3<> \"$2\"; ",
    "stty raw -echo min 0 time 1 <&3 || exit 1; raw=$(stty -g <&3); echo ready; ",
    "read -r word; [ \"$word\" = left ] && exit 0; ",
    "printf '\\033[0m\\033[?7h\\033[?25h\\033[?2004l' >&2; ",
    "for time in 1 2 3 4; do [ \"$(stty -g <&3)\" = \"$raw\" ] || exit 0; done; ",
    "stty \"$1\" <&3",
);

#[test]
fn enters_and_leaves_by_stty(rt: HostRuntime) -> Result<(), Fail> {
    let record = Record::new(rt.alloc())?;
    let answers = [
        (0, "500:5:bf\n30 100\n/dev/pts/7\n"),
        (0, "ready\n"),
        (0, ""),
    ];
    let stage = Stage::new(record.share()?, rt.alloc(), &answers)?;
    let mut tty = SttyTty::new(stage, rt.alloc(), record.share()?);
    let entered = tty.enter()?;
    assert_eq!(rt; (entered.size.rows(), entered.size.cols()), (30, 100));
    assert_eq!(rt; entered.moment, 1_700_000_000_123);
    tty.leave()?;
    assert!(rt; record.has_written(b"\x1b[0m\x1b[?7h\x1b[?25h\x1b[?2004l"));
    assert!(rt; record.asks(0, "sh|-c|settings=$(stty -g < /dev/tty) && "));
    assert!(rt; record.asks(0, "stty size < /dev/tty || exit 1; "));
    let guard = format!(in rt.alloc(); "setsid|sh|-c|{GUARD}|guard|500:5:bf|/dev/pts/7")?;
    assert!(rt; record.told(1, guard.as_str()));
    assert!(rt; record.told(2, "sh|-c|stty \"$1\" < /dev/tty|sh|500:5:bf"));
    assert!(rt; !record.asks(3, ""));
    assert!(rt; record.has_course(b"end 0;end 2;left\nend 1;"));
    Ok(())
}

#[test]
fn leaves_the_settings_to_the_guard(rt: HostRuntime) -> Result<(), Fail> {
    let record = Record::new(rt.alloc())?;
    let answers = [
        (0, "500:5:bf\n30 100\n/dev/pts/7\n"),
        (0, "ready\n"),
        (256, ""),
    ];
    let stage = Stage::new(record.share()?, rt.alloc(), &answers)?;
    let mut tty = SttyTty::new(stage, rt.alloc(), record.share()?);
    tty.enter()?;
    assert!(rt; tty.leave().is_err());
    assert_eq!(rt; tty.fault(), Some(TtyFault::NotLeft));
    assert!(rt; record.has_course(b"end 0;end 2;end 1;"));
    Ok(())
}

/// The words by which the terminal is made raw without a guard.
const RAW: &str = "sh|-c|stty raw -echo min 0 time 1 < /dev/tty|sh|";

#[test]
fn enters_where_guards_are_refused(rt: HostRuntime) -> Result<(), Fail> {
    let guard = format!(in rt.alloc(); "sh|-c|{GUARD}|guard|500:5:bf|/dev/tty")?;
    let guard = guard.as_str();
    let known = "500:5:bf\n30 100\n/dev/pts/7\n";
    let unknown = "500:5:bf\n30 100\n";
    let cases: [(&[(i32, &str)], usize, &str, &[u8]); 4] = [
        (
            &[(0, known), (256, ""), (0, "ready\n")],
            2,
            guard,
            b"end 0;end 1;end 3;left\nend 2;",
        ),
        (
            &[(0, unknown), (0, "ready\n")],
            1,
            guard,
            b"end 0;end 2;left\nend 1;",
        ),
        (
            &[(0, known), (256, ""), (256, "rea"), (0, "")],
            3,
            RAW,
            b"end 0;end 1;end 2;end 3;end 4;",
        ),
        (
            &[(0, unknown), (256, ""), (0, "")],
            2,
            RAW,
            b"end 0;end 1;end 2;end 3;",
        ),
    ];
    for (answers, number, words, course) in cases {
        let record = Record::new(rt.alloc())?;
        let mut stage = Stage::new(record.share()?, rt.alloc(), answers)?;
        stage.add(0, "")?;
        let mut tty = SttyTty::new(stage, rt.alloc(), record.share()?);
        tty.enter()?;
        tty.leave()?;
        assert!(rt; record.told(number, words), "{words}");
        assert!(rt; record.has_course(course), "{words}");
    }
    Ok(())
}

#[test]
fn refuses_to_enter(rt: HostRuntime) -> Result<(), Fail> {
    let cases: [(&[(i32, &str)], TtyFault); 6] = [
        (&[], TtyFault::NoTerminal),
        (&[(256, "")], TtyFault::NoTerminal),
        (&[(0, "500:5:bf\n")], TtyFault::NoTerminal),
        (&[(0, "500:5:bf\n0 100\n")], TtyFault::BadSize),
        (&[(0, "500:5:bf\n501 80\n")], TtyFault::BadSize),
        (&[(0, "500:5:bf\n24 80\n"), (256, "")], TtyFault::NotRaw),
    ];
    for (answers, fault) in cases {
        let record = Record::new(rt.alloc())?;
        let stage = Stage::new(record.share()?, rt.alloc(), answers)?;
        let mut tty = SttyTty::new(stage, rt.alloc(), record.share()?);
        assert!(rt; tty.enter().is_err(), "{fault}");
        assert_eq!(rt; tty.fault(), Some(fault), "{fault}");
    }
    Ok(())
}

/// A terminal that gives nothing yet, or one that is gone.
#[derive(Drop)]
struct Silent {
    is_there: bool,
}

impl Read for Silent {
    fn read(&mut self, _buf: &mut [u8]) -> io::Result<usize> {
        Ok(0)
    }
}

impl IsTerminal for Silent {
    fn is_terminal(&self) -> bool {
        self.is_there
    }
}

/// Returns the moment that an event tells.
fn moment_of(event: &Event) -> Option<u64> {
    match event {
        Event::Tick(moment) => Some(*moment),
        _ => None,
    }
}

/// Returns the size that an event brings.
fn size_of(event: &Event) -> Option<(u32, u32)> {
    match event {
        Event::Resize(size) => Some((size.rows(), size.cols())),
        _ => None,
    }
}

#[test]
fn polls_a_silent_terminal(rt: HostRuntime) -> Result<(), Fail> {
    let record = Record::new(rt.alloc())?;
    let answers = [(0, "0 0\n"), (0, "24 80\n"), (256, "")];
    let stage = Stage::new(record.share()?, rt.alloc(), &answers)?;
    let mut inbox = PollInbox::over_terminal(stage, rt.alloc(), Silent { is_there: true });
    for number in 1..16 {
        let event = inbox.next()?;
        let (moment, size) = if number == 5 {
            (None, Some((24, 80)))
        } else {
            (Some(1_700_000_000_123), None)
        };
        assert_eq!(rt; moment_of(&event), moment, "{number}");
        assert_eq!(rt; size_of(&event), size, "{number}");
    }
    assert!(rt; record.told(0, "sh|-c|stty size < /dev/tty|sh|"));
    let mut gone = PollInbox::over_terminal(rt, rt.alloc(), Silent { is_there: false });
    assert!(rt; matches!(gone.next(), Err(InboxFault::Failed)));
    let mut ended = PollInbox::over_stream(rt, rt.alloc(), Silent { is_there: false });
    assert!(rt; matches!(ended.next()?, Event::End));
    Ok(())
}

/// A clock that tells no moment.
#[derive(Drop)]
struct Silence;

impl Clock for Silence {
    fn monotonic(&self) -> io::Result<Duration> {
        Err(io::Error::from(ErrorKind::Other))
    }

    fn since_1970(&self) -> io::Result<Duration> {
        Err(io::Error::from(ErrorKind::Other))
    }
}

#[test]
fn enters_a_given_size(rt: HostRuntime) -> Result<(), Fail> {
    let record = Record::new(rt.alloc())?;
    let stage = Stage::new(record.share()?, rt.alloc(), &[])?;
    let size = Size::new(3, 40).expect(&rt, "a size");
    let mut tty = FixedTty::new(stage, size);
    let entered = tty.enter()?;
    assert_eq!(rt; (entered.size.rows(), entered.size.cols()), (3, 40));
    assert_eq!(rt; entered.moment, 1_700_000_000_123);
    tty.leave()?;
    assert!(rt; !record.asks(0, ""));
    assert!(rt; FixedTty::new(Silence, size).enter().is_err());
    Ok(())
}
