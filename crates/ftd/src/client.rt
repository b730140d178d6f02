//! A command that is asked of the server at a port of this machine, in the place of a file.

mod answer;
mod remote;

use crate::client::answer::{Answer, answer_in};
pub(crate) use crate::client::remote::remote_of;
use crate::client::remote::{Remote, line_of};
use ftd_cli::{CliFault, Word, escape_word};
use ftd_files::ProgramFault;
use ftd_ports::{Port, write_all};
use ftd_program::tell;
use std::io::{self, Read, Write};
use std::net::TcpStream;

/// What is told where a word can't stand in a line.
const NO_LINE: &str = "\
error: a word that is sent with --at is not empty, and has no blank, tab or line's end in it
";

/// How the response of a server begins that can't answer.
const FAILED: &[u8] = b"HTTP/1.1 500 ";

/// What is told where it does.
const CANNOT: &str = "the server can't answer";

/// What is told where no server of a desk answers.
const NOBODY: &str = "no ftd serve answers";

/// Tells why the server at this port does not answer, and gives the exit status.
fn tell_unanswered(rt: &HostRuntime, port: u16, why: &str) -> u8 {
    // Where standard error fails, the status still tells.
    let _ = eprint!(rt; "failed Net\nhint: {why} at port {port} of this machine\n");
    3
}

/// Sends the line to the server, and reads its response.
fn exchange(rt: &HostRuntime, port: u16, line: &str) -> Result<Vec<u8>, io::Error> {
    let mut stream = TcpStream::connect(rt, ("127.0.0.1", port))?;
    let length = line.len();
    let request = format!(in rt.alloc();
        "POST /commands HTTP/1.1\r\nHost: 127.0.0.1:{port}\r\nContent-Type: text/plain\r\n\
         Content-Length: {length}\r\nConnection: close\r\n\r\n{line}"
    )?;
    stream.write_all(request.as_bytes())?;
    let mut response = Vec::new(rt.alloc());
    stream.read_to_end(&mut response)?;
    Ok(response)
}

/// Prints what a server answers, and gives the exit status.
fn print(rt: &HostRuntime, answer: &Answer) -> u8 {
    let (mut out, mut err) = (Port::new(io::writer(rt)), Port::new(rt.stderr()));
    let printed = write_all(&mut out, answer.out.as_bytes());
    // Where standard error fails, the status still tells.
    let _ = write_all(&mut err, answer.err.as_bytes());
    if printed.is_err() {
        let _ = write_all(&mut err, b"failed Output\n");
        return 3;
    }
    answer.status
}

/// Tells why the words ask nothing, and gives the exit status.
fn tell_fault(rt: &HostRuntime, fault: &CliFault) -> u8 {
    let (mut out, mut err) = (Port::new(io::writer(rt)), Port::new(rt.stderr()));
    tell(fault, &mut out, &mut err)
}

/// Asks the server at this port what the line asks, prints what it answers, and gives the exit
/// status.
fn ask_at(rt: &HostRuntime, port: u16, line: &str) -> u8 {
    let Ok(response) = exchange(rt, port, line) else {
        return tell_unanswered(rt, port, NOBODY);
    };
    match answer_in(rt.alloc(), &response) {
        Some(answer) => print(rt, &answer),
        None if response.starts_with(FAILED) => tell_unanswered(rt, port, CANNOT),
        None => tell_unanswered(rt, port, NOBODY),
    }
}

/// Asks the server at the port of the words what they ask, prints what it answers, and gives the
/// exit status.
pub(crate) fn ask(rt: &HostRuntime, remote: &Remote<'_>) -> Result<u8, ProgramFault> {
    let Ok(port) = remote.port.parse::<u16>() else {
        let fault = CliFault::BadArgument {
            word: Word::Port,
            value: escape_word(rt.alloc(), remote.port)?,
        };
        return Ok(tell_fault(rt, &fault));
    };
    match line_of(rt, remote)? {
        Some(line) => Ok(ask_at(rt, port, &line)),
        None => {
            let text = String::from_str(rt.alloc(), NO_LINE)?;
            Ok(tell_fault(rt, &CliFault::Usage(text)))
        }
    }
}
