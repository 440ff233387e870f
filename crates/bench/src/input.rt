// The text of a scenario, from standard input or from the files named as arguments, and its lines.
ghost use Rattle.std.specs.Prelude.{◌≤◌, length};

use command::{Bottom, Command, Wrong};
use memchr::memchr;
use std::io::Read;
use std::{env, fs, io, slice};

// A line that has a command or is wrong, by its number in its file. The command borrows the file's text.
#[derive(Drop)]
pub struct Line<'t> {
    pub number: u64,
    pub command: Result<Command<'t>, Wrong>,
}

impl<'t> Line<'t> {
    pub fn command(&self) -> Result<&Command<'t>, Wrong> {
        self.command.as_ref().map_err(|wrong| *wrong)
    }

    // The card that the line puts in.
    pub fn card(&self) -> Option<NewCard> {
        match self.command {
            Ok(Command::Card(bottom, words)) => Some(NewCard { bottom, words }),
            _ => None,
        }
    }
}

// The bottom card of a scenario, and how many words it has.
#[derive(Clone, Copy)]
pub struct NewCard {
    pub bottom: Bottom,
    pub words: u32,
}

// The text of each file; None, and a line that says which, if one cannot be read.
pub fn gather(rt: &HostRuntime) -> io::Result<Option<Vec<Vec<u8>>>> {
    let mut files = Vec::new(rt.alloc());
    let mut names = env::args(rt)?;
    let _program = names.next();
    for name in names {
        let Ok(text) = fs::read(rt, name.as_str()) else {
            println!(rt; "{name}: the file cannot be read")?;
            return Ok(None);
        };
        files.push(text)?;
    }
    if files.is_empty() {
        let mut text = Vec::new(rt.alloc());
        rt.stdin().read_to_end(&mut text)?;
        files.push(text)?;
    }
    Ok(Some(files))
}

// The lines that are left. Each is read when it is asked for, so that no line is kept.
#[derive(Drop)]
pub struct Lines<'t> {
    files: slice::Iter<'t, Vec<u8>>,
    // what is left of the file that is being read, and how many of its lines came before that
    text: &'t [u8],
    number: u64,
}

impl<'t> Lines<'t> {
    pub fn of(files: &'t [Vec<u8>]) -> Lines<'t> {
        Lines {
            files: files.iter(),
            text: &[],
            number: 0,
        }
    }

    // The next line that has a command or is wrong.
    pub fn next(&mut self) -> Option<Line<'t>> {
        for _ in 0..u64::MAX {
            let (number, text) = self.next_text()?;
            // an empty line costs no call
            if text.is_empty() {
                continue;
            }
            if let Some(command) = command::read(text).transpose() {
                return Some(Line { number, command });
            }
        }
        None
    }

    // The next line's number in its file, and its text without the line end.
    fn next_text(&mut self) -> Option<(u64, &'t [u8])> {
        if self.text.is_empty() {
            self.text = self.files.find(|file| !file.is_empty())?.as_slice();
            self.number = 0;
        }
        let end = line_end(self.text);
        let (text, rest) = self.text.split_at(end);
        self.text = rest.get(1..).unwrap_or(&[]);
        self.number = self.number.saturating_add(1);
        Some((self.number, text))
    }
}

// How many bytes stand before the first line end. Among the first bytes it is looked for without a call, since most lines are short.
fn line_end(text: &[u8]) -> usize
    ensures { result ≤ length text.now }
{
    let start = &text[..text.len().min(32)];
    match start.iter().position(|byte| *byte == b'\n') {
        Some(end) => end,
        None => memchr(b'\n', text).unwrap_or(text.len()),
    }
}
