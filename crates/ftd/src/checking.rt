//! What a check found is printed.

use ftd_local::Checked;
use ftd_ports::{Port, write_all};
use ftd_program::fail_output;
use std::io;

/// Prints what a check printed, and gives the exit status: 3 if it can't be printed.
pub(crate) fn tell_checked(rt: &HostRuntime, checked: Checked) -> u8 {
    let (mut out, mut err) = (Port::new(io::writer(rt)), Port::new(rt.stderr()));
    let printed = write_all(&mut out, &checked.out.into_inner());
    // Where standard error fails, the status still tells.
    let _ = write_all(&mut err, &checked.err.into_inner());
    match printed {
        Ok(()) => checked.status,
        Err(_) => fail_output(out, err).status,
    }
}
