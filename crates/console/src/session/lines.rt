// The lines of a script, and of a file that it brings in by `do`.
use super::Session;
use crate::failure::Failure;
use listing::unread::CannotRead;
use script::command::Command;
use script::read::read_line;
use std::fs;

// Writes of a line that it cannot be read, if that is why it failed.
fn report(
    performed: Result<Session, Failure>,
    line: CannotRead,
    out: &mut String,
) -> Result<Session, Failure> {
    match performed {
        Err(Failure::Unread) => {
            out.writeln(line)?;
            Err(Failure::Reported)
        }
        other => other,
    }
}

impl Session {
    // Performs the next line of the script, and writes what was performed.
    pub fn line(self, rt: &HostRuntime, line: &str, out: &mut String) -> Result<Session, Failure> {
        let number = self.lines.saturating_add(1);
        let session = Session {
            lines: number,
            ..self
        };
        let performed = session.try_line(rt, line, out);
        let file = None;
        report(performed, CannotRead { file, number, line }, out)
    }

    fn try_line(self, rt: &HostRuntime, line: &str, out: &mut String) -> Result<Session, Failure> {
        match read_line(rt.alloc(), line)? {
            Command::Do(file) => self.file(rt, file.as_str(), out),
            command => self.perform(command, out),
        }
    }

    // Performs the lines of a file as if they stood in the script.
    fn file(self, rt: &HostRuntime, name: &str, out: &mut String) -> Result<Session, Failure> {
        let Ok(text) = fs::read_to_string(rt, name) else {
            return Err(Failure::Unread);
        };
        let mut session = self;
        for (number, line) in (1..=u64::MAX).zip(text.as_str().lines()) {
            let performed = session.file_line(line, out);
            let file = Some(name);
            session = report(performed, CannotRead { file, number, line }, out)?;
        }
        Ok(session)
    }

    fn file_line(self, line: &str, out: &mut String) -> Result<Session, Failure> {
        let command = read_line(self.heap, line)?;
        self.perform(command, out)
    }
}

// Performs a script, and prints what was performed line by line.
pub fn play(rt: &HostRuntime, script: &str) -> Result<(), Failure> {
    let mut session = Session::new(rt.alloc())?;
    let mut out = String::new(rt.alloc());
    for line in script.lines() {
        let performed = session.line(rt, line, &mut out);
        rt.write_all(out.as_bytes())?;
        out.clear();
        session = performed?;
    }
    Ok(())
}
