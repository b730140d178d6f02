//! Connections over real sockets.

use crate::desks::new_desk;
use crate::exchanges::{INPUT, OUTPUT};
use crate::taker::Taker;
use ftd_connections::{Limits, Stop, announce, serve_on};
use ftd_ports::Port;
use ftd_waiting::WaitingRoom;
use std::alloc::Global;
use std::io::{Read, Write};
use std::net::{Shutdown, TcpListener, TcpStream};
use std::process::Abort;
use std::test::Fail;

/// So many connections, each of which may be idle or silent for a second.
fn limits(connections: u32) -> Limits {
    Limits {
        connections,
        idle: 1,
        silence: 1,
        duration: 60,
    }
}

/// The texts are the same.
fn are_same(rt: &impl Abort, written: &[u8], wanted: &[u8]) {
    let written = str::from_utf8(written).unwrap_or("");
    assert_eq!(rt; written, str::from_utf8(wanted).unwrap_or("no text"));
}

/// A new desk serves so many connections: how many are taken, and what is told of them.
fn served(rt: &HostRuntime, listener: &TcpListener, count: u32) -> Result<(u32, Vec<u8>), Fail> {
    let mut err = Port::new(Vec::new(rt.alloc()));
    let mut desk = new_desk(rt.alloc())?;
    let mut room = WaitingRoom::new(rt, listener);
    let taken = serve_on(rt, &mut room, limits(count), 0, &mut desk, &mut err);
    Ok((taken, err.into_inner()))
}

/// The port is told.
fn is_announced(rt: &impl Abort, alloc: Global, listener: &TcpListener) -> Result<(), Fail> {
    let (mut out, mut err) = (Port::new(Vec::new(alloc)), Port::new(Vec::new(alloc)));
    assert_eq!(rt; announce(listener, 0, &mut out, &mut err), Ok(()));
    let port = listener.local_addr()?.port();
    let line = format!(in alloc; "listening 127.0.0.1:{port}\n")?;
    are_same(rt, out.into_inner().as_slice(), line.as_bytes());
    are_same(rt, err.into_inner().as_slice(), b"");
    Ok(())
}

/// A client that sends the messages, and no more.
fn client(rt: &HostRuntime, listener: &TcpListener) -> Result<TcpStream, Fail> {
    let mut stream = TcpStream::connect(rt, listener.local_addr()?)?;
    stream.write_all(INPUT)?;
    stream.shutdown(Shutdown::Write)?;
    Ok(stream)
}

/// All messages of the client are answered.
fn are_answered(rt: &impl Abort, alloc: Global, mut client: TcpStream) -> Result<(), Fail> {
    let mut answers = Vec::new(alloc);
    client.read_to_end(&mut answers)?;
    are_same(rt, answers.as_slice(), OUTPUT);
    Ok(())
}

#[test]
fn a_peer_is_answered_over_a_socket(rt: HostRuntime) -> Result<(), Fail> {
    let listener = TcpListener::bind(&rt, "127.0.0.1:0")?;
    is_announced(&rt, rt.alloc(), &listener)?;
    let client = client(&rt, &listener)?;
    let (taken, told) = served(&rt, &listener, 1)?;
    assert_eq!(rt; taken, 1);
    are_same(&rt, told.as_slice(), b"");
    are_answered(&rt, rt.alloc(), client)
}

#[test]
fn an_idle_peer_is_not_told_a_silent_one_fails_and_the_next_is_answered(
    rt: HostRuntime,
) -> Result<(), Fail> {
    let listener = TcpListener::bind(&rt, "127.0.0.1:0")?;
    let mut idle = TcpStream::connect(&rt, listener.local_addr()?)?;
    let mut silent = TcpStream::connect(&rt, listener.local_addr()?)?;
    silent.write_all(&INPUT[..20])?;
    let client = client(&rt, &listener)?;
    let (taken, told) = served(&rt, &listener, 3)?;
    assert_eq!(rt; taken, 3);
    are_same(&rt, told.as_slice(), b"connection 1 failed Read\n");
    are_answered(&rt, rt.alloc(), client)?;
    let mut nothing = Vec::new(rt.alloc());
    idle.read_to_end(&mut nothing)?;
    let _ = silent.read_to_end(&mut nothing);
    are_same(&rt, nothing.as_slice(), b"");
    Ok(())
}

#[test]
fn a_port_that_can_not_be_told_is_a_stop(rt: HostRuntime) -> Result<(), Fail> {
    let alloc = rt.alloc();
    let listener = TcpListener::bind(&rt, "127.0.0.1:0")?;
    let mut out = Port::new(Taker {
        taken: Vec::new(alloc),
        room: 5,
    });
    let mut err = Port::new(Vec::new(alloc));
    let announced = announce(&listener, 0, &mut out, &mut err);
    assert_eq!(rt; announced, Err(Stop::Output));
    let Taker { taken, room: _ } = out.into_inner();
    are_same(&rt, taken.as_slice(), b"liste");
    are_same(&rt, err.into_inner().as_slice(), b"failed Output\n");
    Ok(())
}
