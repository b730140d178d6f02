//! The desk in memory, which answers messages of HTTP.

ghost use Rattle.std.specs.Prelude.{◌≡◌, ◌⊎◌, ◌<◌, ◌≤◌, ◌++◌, length, drop, IfOk};
ghost use Rattle.sqlite.specs.Steps.{over_memory};
ghost use Rattle.ftd_machine.specs.State.{nothing};
ghost use Rattle.ftd_desk.specs.Desks.{Keeps, held};
ghost use Rattle.ftd_c.specs.Office.{AreAnswers, HasAnswered, no_answers};

use crate::codes::CallFault;
use ftd_desk::Desk;
use ftd_ports::Port;
use ftd_server::serve;
use sqlite::{Connection, MemStore};
use std::alloc::Global;

/// A desk over a database in memory, in which nothing was entered.
fn new_desk(alloc: Global) -> Result<Desk<MemStore>, CallFault>
    ensures { IfOk result (λ desk. Keeps (held over_memory desk) nothing) }
{
    let Ok(conn) = Connection::open_in_memory(alloc) else {
        return Err(CallFault::Memory);
    };
    match Desk::open(alloc, conn) {
        Ok(desk) => Ok(desk),
        Err(_) => Err(CallFault::Memory),
    }
}

/// The answers of a new desk to the messages.
fn answers_to(alloc: Global, messages: &[u8]) -> Result<Vec<u8>, CallFault>
    ensures { IfOk result (λ text. AreAnswers messages.now text.items) }
{
    let mut desk = new_desk(alloc)?;
    let mut source = Port::new(messages);
    let mut target = Port::new(Vec::new(alloc));
    match serve(alloc, &mut desk, &mut source, &mut target) {
        Ok(_) => Ok(target.into_inner()),
        Err(_) => Err(CallFault::Memory),
    }
}

/// Puts the text at the front of the room, where it has room for all of it.
fn fill(text: &[u8], room: &mut [u8])
    ensures stands { length text.now ≤ length room.old
        → room.new ≡ text.now ++ drop (length text.now) room.old }
    ensures stays { length room.old < length text.now → room.new ≡ room.old }
{
    let count = text.len();
    if count <= room.len() {
        room[..count].copy_from_slice(text);
    }
}

/// Answers messages of HTTP, one after the other, by a desk in memory in which nothing was entered,
/// and which is gone after the call. The bytes are those of one connection: it ends with them, and
/// before them where a message asks for it, after the hundredth message, and after one that is
/// refused by its head. Answers how many bytes the answers have. They stand at the front of
/// `answers`; where that has no room for all of them, it stays as it was. Where memory was refused,
/// 18446744073709551615 is answered, and `answers` stays as it was too.
#[unsafe(no_mangle)]
pub extern "C" fn ftd_answer(alloc: Global, messages: &[u8], answers: &mut [u8]) -> usize
    ensures answers { (result ≡ no_answers)
        ⊎ HasAnswered messages.now answers.old answers.new result }
    ensures none { result ≡ no_answers → answers.new ≡ answers.old }
{
    match answers_to(alloc, messages) {
        Ok(text) => {
            fill(&text, answers);
            text.len()
        }
        Err(_) => usize::MAX,
    }
}
