// Reads a panel export from standard input, and prints for a person what it holds or why it is refused.
#![tactic(auto)]

use exports::export::BuildError;
use panels::session::Session;
use reports::report::{Report, Unaccepted};
use std::io;
use std::io::Read;

// How a line that was not accepted ends the reading.
fn ended(session: &Session, error: BuildError) -> Unaccepted {
    match error {
        BuildError::Refused(why) => Unaccepted::Refused(why, session.lines),
        BuildError::OutOfMemory => Unaccepted::OutOfMemory,
    }
}

// Bytes as they are read; the tests of reading push a whole text, and use no program.
fn push_all(session: &mut Session, bytes: &[u8]) -> Result<(), BuildError> {
    for b in bytes {
        session.push(*b)?;
    }
    Ok(())
}

// The input's end; tables that no call follows are judged as by the first call.
fn finish(session: &mut Session) -> Result<(), Unaccepted> {
    if let Err(error) = session.finish() {
        return Err(ended(session, error));
    }
    session.intake.open_calls().map_err(Unaccepted::Unfinished)
}

fn read_export(rt: &HostRuntime, session: &mut Session) -> io::Result<Result<(), Unaccepted>> {
    let mut input = rt.stdin();
    let mut buf = [0u8; 4096];
    for _ in 0..u64::MAX {
        let n = input.read(&mut buf)?;
        if n == 0 {
            break;
        }
        if let Err(error) = push_all(session, &buf[..n]) {
            return Ok(Err(ended(session, error)));
        }
    }
    Ok(finish(session))
}

fn main(rt: HostRuntime) -> io::Result<()> {
    let Ok(mut session) = Session::new(rt.alloc()) else {
        return rt.println("There is not enough memory to read an export.");
    };
    let outcome = read_export(&rt, &mut session)?;
    let report = Report {
        session: &session,
        outcome,
    };
    print!(rt; "{report}")
}
