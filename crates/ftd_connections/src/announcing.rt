//! Where a server listens.

ghost use Rattle.std.specs.Prelude.{IfSome, Result};
ghost use Rattle.ftd_ports.specs.declared.writing.WriteFault.{WriteFault};
ghost use Rattle.ftd_connections.specs.Listening.{IsAnnounced, IsPortFor, IsTold};
ghost use Rattle.ftd_connections.specs.Listening.{stop_line, stop_of};

use crate::lines::{tell_listening, tell_stop};
use crate::stop::Stop;
use ftd_ports::Target;
use std::net::TcpListener;

/// Tells on `out` at which port of 127.0.0.1 the listener listens: the one that was asked for, or
/// where that was any, 0, the one that the system gave. Where it has none, or `out` fails, why is
/// told on `err`.
pub fn announce<Out: Target, Err: Target>(
    listener: &TcpListener,
    asked: u16,
    out: &mut Out,
    err: &mut Err,
) -> Result<(), Stop>
    ensures port { IsAnnounced asked result (Out.taken out.old) (Out.taken out.new)
        (Out.failed out.new) }
    ensures stop { (told : Result (Unit {0}) WriteFault)
        × IsTold told (Err.taken err.old) (Err.taken err.new) (Err.failed err.new)
        (stop_line (stop_of result)) }
{
    let announced = announce_port(listener, asked, out);
    if let Err(stop) = announced {
        let _ = tell_stop(stop, err);
    }
    announced
}

/// The port at which the listener listens that was bound at the one that was asked for.
fn port_of(listener: &TcpListener, asked: u16) -> Option<u16>
    ensures { IfSome result (IsPortFor asked) }
{
    if asked != 0 {
        return Some(asked);
    }
    match listener.local_addr() {
        Ok(address) => Some(address.port()),
        Err(_) => None,
    }
}

/// Tells at which port the listener listens.
fn announce_port<Out: Target>(listener: &TcpListener, asked: u16, out: &mut Out) -> Result<(), Stop>
    ensures { IsAnnounced asked result (Out.taken out.old) (Out.taken out.new)
        (Out.failed out.new) }
{
    let Some(port) = port_of(listener, asked) else {
        return Err(Stop::Net);
    };
    match tell_listening(port, out) {
        Ok(()) => Ok(()),
        Err(_) => Err(Stop::Output),
    }
}
