//! The connections that wait, and which of them is next.

ghost use Rattle.std.specs.Prelude.{◌≡◌, ◌≤◌, ◌<◌, ◌+◌, ◌-◌, IfSome, OnSome, IfNone, vec_len};
ghost use Rattle.ftd_waiting.specs.declared.room.TheConstants.{MOST_WAITING};

use crate::waiting::Waiting;
use crate::watch::Watch;
use std::io::ErrorKind;
use std::net::{Net, TcpListener, TcpStream};
use std::time::{Clock, Duration};

/// How many connections wait at once, at most.
pub const MOST_WAITING: usize = 64;

/// For how many milliseconds a connection may be silent where there is no room for others.
const CROWDED: u64 = 10;

/// Whose turn it is.
#[derive(Drop)]
pub enum Next {
    /// This connection has something to read, or has ended or failed, which reading it tells. Its
    /// stream blocks.
    Ready(TcpStream),
    /// This connection was silent for too long, and is to be closed.
    Idle(TcpStream),
    /// The listener gave none.
    Missed,
}

/// Which of the connections that are there were accepted.
#[derive(Clone, Copy)]
enum Admission {
    /// All of them, as far as they may be taken.
    All,
    /// There may be others, for which there is no room.
    Full,
    /// The listener failed, or there is no memory.
    Failed,
}

/// The connections of a listener that were accepted and wait for their turn.
#[derive(Drop)]
pub struct WaitingRoom<'a> {
    listener: &'a TcpListener,
    waiting: Vec<Waiting>,
    watch: Option<Watch>,
    ghost few: { vec_len waiting ≤ MOST_WAITING },
}

impl<'a> WaitingRoom<'a> {
    ghost use Rattle.ftd_waiting.specs.Rooms.{count_of};

    /// A room with none waiting. The listener blocks no more. Where the system gives no way to wait
    /// for several connections at once, or there is no memory for it, it blocks, and connections
    /// are given in the order in which they come.
    pub fn new<R: Net + AllocGlobal>(rt: &R, listener: &'a TcpListener) -> WaitingRoom<'a>
        ensures { count_of result ≡ 0 }
    {
        let mut waiting = Vec::new(rt.alloc());
        let watch = match waiting.reserve(MOST_WAITING) {
            Ok(()) => watch_over(rt, listener),
            Err(_) => None,
        };
        if watch.is_none() {
            let _ = listener.set_nonblocking(false);
        }
        WaitingRoom {
            listener,
            waiting,
            watch,
        }
    }

    /// The listener whose connections these are.
    pub fn listener(&self) -> &'a TcpListener {
        self.listener
    }

    /// Waits for the connection whose turn is next, of those that wait and those that come: the one
    /// accepted first of those that have something to read, or were silent for the idle limit. After
    /// it so many others may be taken: no more are accepted.
    ///
    /// Where as many wait as may wait, or the listener fails, one that was silent for 10 ms is idle.
    pub fn next<C: Clock>(&mut self, clock: &C, idle: Duration, others: u32) -> Next
        ensures { count_of self.old ≤ others + 1 → count_of self.new ≤ others }
    {
        for _turn in 0..u64::MAX {
            if self.watch.is_none() {
                break;
            }
            let admission = self.admit(clock, others);
            if self.waiting.is_empty() && matches!(admission, Admission::Failed) {
                return Next::Missed;
            }
            let limit = limit_of(admission, idle);
            if let Some(next) = self.take_due(clock, limit) {
                return next;
            }
            self.wait(clock, limit);
        }
        self.take_first()
    }

    /// Accepts those that are there, and no more than one and so many others wait then.
    fn admit<C: Clock>(&mut self, clock: &C, others: u32) -> Admission
        ensures { count_of self.old ≤ others + 1 → count_of self.new ≤ others + 1 }
    {
        let most = MOST_WAITING.min(others as usize + 1);
        for _place in self.waiting.len()..most {
            if self.waiting.reserve(1).is_err() {
                return Admission::Failed;
            }
            match self.listener.accept() {
                Ok((stream, _)) => {
                    let is_watched = self.watches(&stream);
                    self.waiting
                        .push_reserved(Waiting::new(clock, stream, is_watched));
                }
                Err(error) if matches!(error.kind(), ErrorKind::WouldBlock) => {
                    return Admission::All;
                }
                Err(_) => return Admission::Failed,
            }
        }
        if most == MOST_WAITING {
            Admission::Full
        } else {
            Admission::All
        }
    }

    /// Watches a stream, which then does not block. Whether it could be done.
    fn watches(&self, stream: &TcpStream) -> bool {
        match &self.watch {
            Some(watch) => stream.set_nonblocking(true).is_ok() && watch.add(stream).is_ok(),
            None => false,
        }
    }

    /// Takes the first that has something to read, or was silent for so long.
    fn take_due<C: Clock>(&mut self, clock: &C, limit: Duration) -> Option<Next>
        ensures none { IfNone result (count_of self.new ≡ count_of self.old) }
        ensures some { OnSome result (count_of self.new + 1 ≡ count_of self.old) }
    {
        let at = self.first_due(clock, limit)?;
        let is_ready = self.waiting[at].is_ready();
        let stream = self.take(at);
        Some(if is_ready {
            Next::Ready(stream)
        } else {
            Next::Idle(stream)
        })
    }

    /// The place of the first that has something to read, or was silent for so long.
    fn first_due<C: Clock>(&self, clock: &C, limit: Duration) -> Option<usize>
        ensures { IfSome result (λ at. at < count_of self.now) }
    {
        self.waiting
            .iter()
            .position(|it| it.is_ready() || it.time_left(clock, limit).is_zero())
    }

    /// Takes the one at a place. Its stream blocks again.
    fn take(&mut self, at: usize) -> TcpStream
        requires { at < count_of self.old }
        ensures { count_of self.new + 1 ≡ count_of self.old }
    {
        let stream = self.waiting.remove(at).into_stream();
        if let Some(watch) = &self.watch {
            let _ = watch.remove(&stream);
        }
        let _ = stream.set_nonblocking(false);
        stream
    }

    /// Takes the one that was accepted first, or the next one of the listener.
    fn take_first(&mut self) -> Next
        ensures { count_of self.new ≤ count_of self.old - 1 }
    {
        if !self.waiting.is_empty() {
            return Next::Ready(self.take(0));
        }
        match self.listener.accept() {
            Ok((stream, _)) => Next::Ready(stream),
            Err(_) => Next::Missed,
        }
    }

    /// Waits until something comes, or the one that waits longest was silent for so long. Where the
    /// system refuses, the listener blocks from then on.
    fn wait<C: Clock>(&mut self, clock: &C, limit: Duration)
        ensures { count_of self.new ≡ count_of self.old }
    {
        let left = self.waiting.first().map(|it| it.time_left(clock, limit));
        let Some(watch) = &mut self.watch else {
            return;
        };
        if watch.wait(left).is_err() {
            self.watch = None;
            let _ = self.listener.set_nonblocking(false);
        }
    }
}

/// A watch over the listener, where the system gives one and there is memory for it.
fn watch_over<R: Net + AllocGlobal>(rt: &R, listener: &TcpListener) -> Option<Watch> {
    let watch = Watch::new(rt).ok()?;
    watch.add(listener).ok()?;
    listener.set_nonblocking(true).ok()?;
    Some(watch)
}

/// For how long a connection may be silent.
fn limit_of(admission: Admission, idle: Duration) -> Duration {
    match admission {
        Admission::All => idle,
        Admission::Full | Admission::Failed => idle.min(Duration::from_millis(CROWDED)),
    }
}
