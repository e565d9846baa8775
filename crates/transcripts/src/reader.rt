// From lines to sessions.
use crate::line::{Line, read_line};
use crate::script::{Script, begin};
use std::alloc::{AllocError, Global};

/// The sessions of a text, or the number of the first line that is none of a session, or for which there is no memory.
pub fn read_scripts(alloc: Global, text: &str) -> Result<Vec<Script>, usize> {
    let mut reader = Reader {
        alloc,
        scripts: Vec::new(alloc),
        each: None,
    };
    for (number, line) in text.lines().enumerate() {
        if reader.read(line).is_none() {
            return Err(number.saturating_add(1));
        }
    }
    let Reader {
        alloc: _,
        scripts,
        each: _,
    } = reader;
    Ok(scripts)
}

/// Lines that stand once for each number, which is in the place of `{n}` or, as seven hexadecimal digits, of `{x}`.
#[derive(Drop)]
struct Each<'a> {
    first: u32,
    count: u32,
    lines: Vec<&'a str>,
}

/// The sessions so far, and the lines of an `each` that isn't done.
#[derive(Drop)]
struct Reader<'a> {
    alloc: Global,
    scripts: Vec<Script>,
    each: Option<Each<'a>>,
}

impl<'a> Reader<'a> {
    // Nothing where the line is none of a session, or there is no memory for it.
    fn read(&mut self, line: &'a str) -> Option<()> {
        if line == "done" {
            let each = self.each.take()?;
            return self.add_each(&each);
        }
        match &mut self.each {
            Some(each) => each.lines.push(line).ok(),
            None => self.add(read_line(line)?),
        }
    }

    fn add(&mut self, said: Line<'_>) -> Option<()> {
        match said {
            Line::Remark => Some(()),
            Line::Session(title) => begin(self.alloc, &mut self.scripts, title).ok(),
            Line::Each(first, count) => {
                let lines = Vec::new(self.alloc);
                self.each = Some(Each {
                    first,
                    count,
                    lines,
                });
                Some(())
            }
            said => self.scripts.last_mut()?.add(self.alloc, said).ok(),
        }
    }

    fn add_each(&mut self, each: &Each<'_>) -> Option<()> {
        for number in 0..each.count {
            self.add_lines(each.lines.as_slice(), each.first.saturating_add(number))?;
        }
        Some(())
    }

    fn add_lines(&mut self, lines: &[&str], number: u32) -> Option<()> {
        for line in lines {
            let numbered = numbered(self.alloc, *line, number).ok()?;
            self.add(read_line(numbered.as_str())?)?;
        }
        Some(())
    }
}

fn numbered(alloc: Global, line: &str, number: u32) -> Result<String, AllocError> {
    let decimal = format!(in alloc; "{number}")?;
    let hexadecimal = format!(in alloc; "{number:07x}")?;
    let line = line.replace(alloc, "{n}", decimal.as_str())?;
    line.as_str().replace(alloc, "{x}", hexadecimal.as_str())
}
