//! A check of a desk, before a server answers with it, and before a copy is made of it.

ghost use Rattle.ftd_local.specs.Checking.{ChecksDesk};

use ftd_cli::Job;
use ftd_desk::Desk;
use ftd_imports::Quiet;
use ftd_ports::Port;
use ftd_program::{JobEnd, perform};
use sqlite::Alter;
use std::alloc::Global;

/// What a check printed, in memory.
pub type Checked = JobEnd<Port<Vec<u8>>, Port<Vec<u8>>>;

/// What a check of the desk of this file prints, with its exit status: 0 if its tables are as
/// requests made them, 1 if they are not, 3 if the store fails or there is no memory. The desk
/// stands as before.
pub fn checked<S: Alter>(alloc: Global, db: &str, desk: &mut Desk<S>) -> Checked
    ensures { ChecksDesk S.Store desk.old desk.new db.now result }
{
    let out = Port::new(Vec::new(alloc));
    let err = Port::new(Vec::new(alloc));
    perform(alloc, db, Job::Check, desk, &[], out, err, &mut Quiet)
}
