//! Reads and writes that fail.

use crate::asking::ask;
use crate::desks::new_desk;
use crate::exchanges::{INPUT, OUTPUT};
use crate::peers::{Sender, exchange, whole};
use crate::taker::Taker;
use ftd_connections::{Cause, ServeFault};
use ftd_ports::Port;
use ftd_server::serve;
use std::alloc::Global;
use std::process::Abort;
use std::test::Fail;

/// The reader fails at its first call after so many bytes: the messages whole in them are answered.
fn a_read_fails(rt: &impl Abort, alloc: Global, fails_after: usize) -> Result<(), Fail> {
    let sender = Sender {
        rest: INPUT,
        first: 7,
        piece: 7,
        fails_after,
    };
    let (served, written) = exchange(alloc, &mut new_desk(alloc)?, sender);
    let (answered, length) = if fails_after < 85 { (0, 0) } else { (1, 87) };
    let cause = Cause::Read;
    assert_eq!(rt;
        served,
        Err(ServeFault { answered, cause }),
        "{fails_after}"
    );
    assert_eq!(rt; written.as_slice(), &OUTPUT[..length]);
    Ok(())
}

#[test]
fn each_read_fails_in_turn(rt: HostRuntime) -> Result<(), Fail> {
    for fails_after in 0..INPUT.len() {
        a_read_fails(&rt, rt.alloc(), fails_after)?;
    }
    Ok(())
}

/// The writer fails after these bytes of the answers, and the account is there.
fn a_write_fails(rt: &impl Abort, alloc: Global, text: &[u8]) -> Result<(), Fail> {
    let room = text.len();
    let mut desk = new_desk(alloc)?;
    let mut source = Port::new(whole(INPUT));
    let mut target = Port::new(Taker {
        taken: Vec::new(alloc),
        room,
    });
    let served = serve(alloc, &mut desk, &mut source, &mut target);
    let Taker { taken, room: _ } = target.into_inner();
    let answered = if room < 87 { 0 } else { 1 };
    let cause = Cause::Write;
    assert_eq!(rt; served, Err(ServeFault { answered, cause }), "{room}");
    assert_eq!(rt; taken.as_slice(), text);
    let again = ask(alloc, &mut desk, "enrol elm 2024-05-01")?;
    assert_eq!(rt; again.as_str(), "already");
    Ok(())
}

#[test]
fn each_write_fails_in_turn(rt: HostRuntime) -> Result<(), Fail> {
    for room in 0..OUTPUT.len() {
        a_write_fails(&rt, rt.alloc(), &OUTPUT[..room])?;
    }
    Ok(())
}
