//! The commands in the body of a message: a server's shell answers them, and what it wrote is the
//! response.

mod body;
mod served;
mod written;

pub(crate) use crate::commands::served::{ByShell, server_shell};
