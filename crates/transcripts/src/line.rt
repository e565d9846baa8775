// A line of a written session.
use ebs_world::Area;

/// What a line says.
#[derive(Clone, Copy)]
pub enum Line<'a> {
    /// Nothing.
    Remark,
    /// A session begins, with this title, over a new disk.
    Session(&'a str),
    /// The program is started once more over the same disk, with these words, if there are any.
    Run(&'a str),
    /// The call of the disk with this number fails, from 0 on since the disk was new.
    Fail(u64),
    /// A byte of the disk is turned round before the program is started.
    Spoil(Area, u64),
    /// A byte of the disk is written before the program is started.
    Set(Area, u64, u8),
    /// The input comes in pieces of at most so many bytes.
    Piece(u32),
    /// Only so many bytes of the input come.
    Cut(usize),
    /// The call of the input with this number fails, from 0 on.
    FailInput(u64),
    /// The call of the output with this number fails, from 0 on.
    FailOutput(u64),
    /// A message begins, at which the clock reads this second.
    At(u64),
    Sent(Part<'a>),
    Written(Part<'a>),
    /// The session ends with this status.
    Ends(u8),
    /// The lines up to the next `done` stand once for each of so many numbers, from the first one on.
    Each(u32, u32),
}

/// Bytes that are sent or written.
#[derive(Clone, Copy)]
pub enum Part<'a> {
    /// A line with its end.
    Line(&'a str),
    /// A text without a line's end.
    Text(&'a str),
    /// A text so many times.
    Times(usize, &'a str),
    /// A line with its end so many times.
    Lines(usize, &'a str),
    /// One byte so many times.
    Bytes(usize, u8),
    /// A line that ends with a line feed alone.
    Plain(&'a str),
}

/// What the line says, where it is one of a session.
pub fn read_line(line: &str) -> Option<Line<'_>> {
    if line.is_empty() || line.starts_with("#") {
        return Some(Line::Remark);
    }
    if let Some(rest) = line.strip_prefix(">") {
        return Some(Line::Sent(read_part(rest, ">")?));
    }
    if let Some(rest) = line.strip_prefix("<") {
        return Some(Line::Written(read_part(rest, "<")?));
    }
    let (word, rest) = line.split_once(" ").unwrap_or((line, ""));
    match word {
        "session" => Some(Line::Session(rest)),
        "run" => Some(Line::Run(rest)),
        "spoil" | "set" | "each" => read_places(word, rest),
        _ => read_number(word, rest),
    }
}

// A word with more than one number, or with an area.
fn read_places<'a>(word: &str, rest: &str) -> Option<Line<'a>> {
    let (first, second) = rest.split_once(" ")?;
    match word {
        "spoil" => Some(Line::Spoil(area_of(first)?, second.parse().ok()?)),
        "set" => {
            let (at, byte) = second.split_once(" ")?;
            Some(Line::Set(area_of(first)?, at.parse().ok()?, byte.parse().ok()?))
        }
        _ => Some(Line::Each(first.parse().ok()?, second.parse().ok()?)),
    }
}

// A word with a number.
fn read_number<'a>(word: &str, rest: &str) -> Option<Line<'a>> {
    let number: u64 = rest.parse().ok()?;
    match word {
        "at" => Some(Line::At(number)),
        "fail" => Some(Line::Fail(number)),
        "input" => Some(Line::FailInput(number)),
        "output" => Some(Line::FailOutput(number)),
        "piece" => Some(Line::Piece(u32::try_from(number).ok()?)),
        "cut" => Some(Line::Cut(usize::try_from(number).ok()?)),
        "ends" => Some(Line::Ends(u8::try_from(number).ok()?)),
        _ => None,
    }
}

fn area_of(name: &str) -> Option<Area> {
    match name {
        "journal0" => Some(Area::Journal0),
        "journal1" => Some(Area::Journal1),
        "blocks" => Some(Area::Blocks),
        "archive" => Some(Area::Archive),
        _ => None,
    }
}

// `> line`, `>> text`, `>x COUNT text`, `>l COUNT line`, `>* COUNT BYTE`, `>n line`; a `>` alone is an empty line.
fn read_part<'a>(rest: &'a str, mark: &str) -> Option<Part<'a>> {
    if rest.is_empty() {
        return Some(Part::Line(""));
    }
    if let Some(line) = rest.strip_prefix(" ") {
        return Some(Part::Line(line));
    }
    if let Some(text) = rest.strip_prefix(mark) {
        return Some(Part::Text(text.strip_prefix(" ")?));
    }
    if let Some(times) = rest.strip_prefix("x ") {
        let (count, text) = times.split_once(" ")?;
        return Some(Part::Times(count.parse().ok()?, text));
    }
    if let Some(times) = rest.strip_prefix("l ") {
        let (count, line) = times.split_once(" ")?;
        return Some(Part::Lines(count.parse().ok()?, line));
    }
    if let Some(line) = rest.strip_prefix("n ") {
        return Some(Part::Plain(line));
    }
    let (count, byte) = rest.strip_prefix("* ")?.split_once(" ")?;
    Some(Part::Bytes(count.parse().ok()?, byte.parse().ok()?))
}
