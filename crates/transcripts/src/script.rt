// Sessions as they are written.
use crate::line::{Line, Part};
use ebs_model::Moment;
use ebs_world::Area;
use std::alloc::{AllocError, Global};

/// How many bytes the input gives at once, where nothing else is said.
const PIECE: u32 = 65536;

/// Starts of the program, one after the other over a new disk, of which some calls fail.
#[derive(Drop)]
pub struct Script {
    pub title: String,
    pub fails: Vec<u64>,
    pub runs: Vec<Run>,
}

/// A start of the program: its words, what comes over its disk before it, how its input comes, the messages of that with a reading of the clock each,
/// what it writes, and its status.
#[derive(Drop)]
pub struct Run {
    pub words: Vec<String>,
    pub changes: Vec<DiskChange>,
    pub ends: Ends,
    pub input: Vec<u8>,
    pub readings: Vec<Moment>,
    pub wanted: Vec<u8>,
    /// Where the answer of each message begins in what is wanted.
    pub places: Vec<usize>,
    pub status: u8,
}

/// What comes over a byte of the disk.
#[derive(Clone, Copy)]
pub enum DiskChange {
    Turned(Area, u64),
    Written(Area, u64, u8),
}

/// How the input comes, and what fails of it and of the output.
#[derive(Drop)]
pub struct Ends {
    /// The most bytes that come at once.
    pub piece: u32,
    /// How many bytes of the input come, where it isn't all of them.
    pub cut: Option<usize>,
    pub input_fails: Vec<u64>,
    pub output_fails: Vec<u64>,
}

impl Script {
    fn new(alloc: Global, title: &str) -> Result<Script, AllocError> {
        Ok(Script {
            title: String::from_str(alloc, title)?,
            fails: Vec::new(alloc),
            runs: Vec::new(alloc),
        })
    }

    pub fn add(&mut self, alloc: Global, line: Line<'_>) -> Result<(), AllocError> {
        match line {
            Line::Fail(number) => self.fails.push(number)?,
            Line::Run(words) => self.runs.push(Run::new(alloc, words)?)?,
            line => {
                if self.runs.is_empty() {
                    self.runs.push(Run::new(alloc, "session")?)?;
                }
                if let Some(run) = self.runs.last_mut() {
                    run.add(line)?;
                }
            }
        }
        Ok(())
    }
}

impl Run {
    // Words are apart by one space.
    fn new(alloc: Global, words: &str) -> Result<Run, AllocError> {
        let mut apart = Vec::new(alloc);
        for word in words.split(" ") {
            if !word.is_empty() {
                apart.push(String::from_str(alloc, word)?)?;
            }
        }
        Ok(Run {
            words: apart,
            changes: Vec::new(alloc),
            ends: Ends {
                piece: PIECE,
                cut: None,
                input_fails: Vec::new(alloc),
                output_fails: Vec::new(alloc),
            },
            input: Vec::new(alloc),
            readings: Vec::new(alloc),
            wanted: Vec::new(alloc),
            places: Vec::new(alloc),
            status: 0,
        })
    }

    fn add(&mut self, line: Line<'_>) -> Result<(), AllocError> {
        match line {
            Line::Spoil(area, at) => self.changes.push(DiskChange::Turned(area, at))?,
            Line::Set(area, at, byte) => self.changes.push(DiskChange::Written(area, at, byte))?,
            Line::Piece(size) => self.ends.piece = size,
            Line::Cut(length) => self.ends.cut = Some(length),
            Line::FailInput(number) => self.ends.input_fails.push(number)?,
            Line::FailOutput(number) => self.ends.output_fails.push(number)?,
            Line::At(second) => {
                self.places.push(self.wanted.len())?;
                self.readings.push(Moment { second })?;
            }
            Line::Sent(part) => add_part(&mut self.input, part)?,
            Line::Written(part) => add_part(&mut self.wanted, part)?,
            Line::Ends(status) => self.status = status,
            _ => {}
        }
        Ok(())
    }
}

/// A session of this title is begun.
pub fn begin(alloc: Global, scripts: &mut Vec<Script>, title: &str) -> Result<(), AllocError> {
    scripts.push(Script::new(alloc, title)?)?;
    Ok(())
}

fn add_part(stream: &mut Vec<u8>, part: Part<'_>) -> Result<(), AllocError> {
    match part {
        Part::Line(line) => add_times(stream, 1, line, "\r\n"),
        Part::Text(text) => add_times(stream, 1, text, ""),
        Part::Times(count, text) => add_times(stream, count, text, ""),
        Part::Lines(count, line) => add_times(stream, count, line, "\r\n"),
        Part::Bytes(count, byte) => {
            let size = stream.len().saturating_add(count);
            stream.resize(size, byte)
        }
        Part::Plain(line) => add_times(stream, 1, line, "\n"),
    }
}

fn add_times(stream: &mut Vec<u8>, count: usize, text: &str, end: &str) -> Result<(), AllocError> {
    for _ in 0..count {
        stream.extend_from_slice(text.as_bytes())?;
        stream.extend_from_slice(end.as_bytes())?;
    }
    Ok(())
}
