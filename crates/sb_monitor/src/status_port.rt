//! The status port of a server: a thread of its own, which serves its connections side by side.
ghost use Rattle.std.specs.Prelude.{◌≡◌, ◌<◌, ◌≤◌};
ghost use Rattle.std.specs.Thread.{IsSend, IsSync};
ghost use Rattle.sb_status.specs.StatisticsCache.{IsCacheOf};

use crate::bell::Bell;
use crate::crowd::{Crowd, PLACES};
use crate::http_connection::Next;
use crate::listener::tell_cannot_listen;
use crate::pages::Pages;
use crate::server_control::ServerControl;
use libc::net as system;
use libc::types::pollfd;
use sb_host::{Hosting, Lending, Stub};
use sb_server::{
    Admission, BackgroundTask, CommitHook, Renewals, ServeError, ServerConfig, Watch, serve_all,
};
use sb_status::StatisticsCache;
use sb_words::{Log, Severity};
use std::alloc::{AllocError, Global};
use std::io::{self, ErrorKind};
use std::net::{Net, SocketAddr, TcpListener, TcpStream};
use std::os::fd::AsRawFd as _;
use std::rt::Clock;
use std::sync::atomic::{AtomicBool, Ordering};
use std::sync::{Mutex, Wait};
use std::thread::{self, Threads};
use std::time::{Duration, Instant};

/// The pause after a failed accept or a failed wait, in milliseconds.
const PAUSE: u64 = 100;

/// The most connections that are taken before those that are there are served.
const TAKEN_A_TURN: usize = 16;

/// The descriptors of the port itself: where connections come, the bell, and what stops the server.
const OWN: usize = 3;

/// All descriptors at which the port waits.
const DESCRIPTORS: usize = 67;

const _: () = prove!(DESCRIPTORS == OWN + PLACES);

/// What a status port waits at: its listener, whose calls don't wait, with its port, and a bell.
#[derive(Drop)]
struct Opened {
    listener: TcpListener,
    port: u16,
    bell: Bell,
}

/// Listens at this address, or at any free port of it. Error: the system's.
fn opened_at<T: Net<Listener = TcpListener, Stream = TcpStream>>(
    rt: &T,
    address: SocketAddr,
) -> io::Result<Opened> {
    let listener = TcpListener::bind(rt, address)?;
    listener.set_nonblocking(true)?;
    let port = listener.local_addr()?.port();
    let bell = Bell::new(rt)?;
    Ok(Opened {
        listener,
        port,
        bell,
    })
}

/// Logs the port of the status pages.
fn tell_status<O: Log>(log: &O, port: u16) {
    log.write(Severity::Info, &format_args!("status pages at port {port}"));
}

/// What a wait is told: something comes at this descriptor.
fn arrival(descriptor: i32) -> pollfd {
    pollfd {
        fd: descriptor,
        events: system::POLLIN,
        revents: 0,
    }
}

/// A status port with its pages.
#[derive(Drop)]
pub struct StatusPort<P> {
    pages: P,
    listener: TcpListener,
    bell: Bell,
    /// Its thread is to end.
    is_over: AtomicBool,
    /// The connections that a paused run left open. The next run goes on with them.
    left: Mutex<Option<Crowd>>,
}

impl<P: Drop> StatusPort<P> {
    /// Listens at this address, or at any free port of it, and logs the port. Error: the system's, which is logged.
    pub fn open<T: Net<Listener = TcpListener, Stream = TcpStream>, O: Log>(
        rt: &T,
        address: SocketAddr,
        log: &O,
        pages: P,
    ) -> io::Result<StatusPort<P>> {
        match opened_at(rt, address) {
            Ok(
                Opened {
                    listener,
                    port,
                    bell,
                },
            ) => {
                tell_status(log, port);
                Ok(StatusPort {
                    pages,
                    listener,
                    bell,
                    is_over: AtomicBool::new(false),
                    left: Mutex::new(None),
                })
            }
            Err(error) => {
                tell_cannot_listen(log, address.port(), &error);
                Err(error)
            }
        }
    }
}

impl<
    'k,
    H: Lending,
    A: Admission,
    T: Wait + Net<Listener = TcpListener, Stream = TcpStream> + Clock,
    E: ServerControl,
> SideTask for StatusPort<Pages<'k, H, A, T, E>> {
    /// Answers requests until it is ended or paused.
    fn run<R: Wait>(&self, rt: &R) {
        let Ok(mut cache) = self.pages.cache() else {
            return;
        };
        let Ok(mut crowd) = self.go_on_with() else {
            return;
        };
        for _turn in rt.forever() {
            if self.is_over.swap(false, Ordering::SeqCst) {
                *self.left.lock(self.pages.rt) = Some(crowd);
                return;
            }
            if self.wait(&crowd) {
                self.pages.control.look();
            }
            self.take_some(&mut crowd);
            self.serve(&mut crowd, &mut cache);
        }
    }

    fn pause(&self) {
        self.is_over.store(true, Ordering::SeqCst);
        self.bell.ring();
    }

    /// Ends the port: no more connections are accepted.
    fn end(&self) {
        let _closed = system::shutdown(self.listener.as_raw_fd(), system::SHUT_RD);
        self.pause();
    }
}

impl<
    'k,
    H: Lending,
    A: Admission,
    T: Wait + Net<Listener = TcpListener, Stream = TcpStream> + Clock,
    E: ServerControl,
> StatusPort<Pages<'k, H, A, T, E>> {
    /// Waits until something comes or a client takes more, or until late connections are to be looked for. True if
    /// something has come at the descriptor whose end stops the server.
    fn wait(&self, crowd: &Crowd) -> bool {
        let mut waits = [arrival(-1); DESCRIPTORS];
        waits[0] = arrival(self.listener.as_raw_fd());
        waits[1] = arrival(self.bell.descriptor());
        waits[2] = arrival(self.pages.control.watched());
        crowd.note_waits(&mut waits[OWN..]);
        if system::poll(&mut waits, crowd.patience()) < 0 {
            thread::sleep(self.pages.rt, Duration::from_millis(PAUSE));
        }
        self.bell.silence();
        waits[2].revents != 0
    }

    /// The time, if the system tells it.
    fn now(&self) -> Option<Instant> {
        Instant::now(self.pages.rt).ok()
    }

    /// The connections that the run before left open, or none. Error: out of memory.
    fn go_on_with(&self) -> Result<Crowd, AllocError> {
        match self.left.lock(self.pages.rt).take() {
            Some(crowd) => Ok(crowd),
            None => Crowd::new(self.pages.alloc),
        }
    }

    /// Accepts some of the connections that wait.
    fn take_some(&self, crowd: &mut Crowd) {
        let now = self.now();
        for _taken in 0..TAKEN_A_TURN {
            match self.listener.accept() {
                Ok((stream, _)) => crowd.take_in(stream, now),
                Err(error) => {
                    if !matches!(error.kind(), ErrorKind::WouldBlock | ErrorKind::Interrupted) {
                        thread::sleep(self.pages.rt, Duration::from_millis(PAUSE));
                    }
                    return;
                }
            }
        }
    }

    /// Goes on with each connection, and closes those that are late or have no more to do.
    fn serve(&self, crowd: &mut Crowd, cache: &mut StatisticsCache)
        requires { IsCacheOf self.now.pages.first_tenant cache.old }
        ensures { IsCacheOf self.now.pages.first_tenant cache.new }
    {
        let now = self.now();
        for place in (0..crowd.len()).rev() {
            if let Next::Ends = self.serve_one(crowd, place, cache, now) {
                crowd.remove(place);
            }
        }
    }

    /// Goes on with the connection at this place, and answers it if it has asked.
    fn serve_one(
        &self,
        crowd: &mut Crowd,
        place: usize,
        cache: &mut StatisticsCache,
        now: Option<Instant>,
    ) -> Next
        requires { IsCacheOf self.now.pages.first_tenant cache.old }
        ensures { IsCacheOf self.now.pages.first_tenant cache.new }
    {
        match crowd.go_on(place, now) {
            Next::Asks => {
                crowd.make_room_for_answer();
                let answer = self.pages.answer(crowd.request(place), cache);
                crowd.answer(place, answer, self.now())
            }
            next => next,
        }
    }
}

/// A task of a thread of its own that runs until the server has ended.
pub trait SideTask {
    /// Runs until it is ended or paused.
    fn run<R: Wait>(&self, rt: &R);

    /// Has its thread end, so that another one can run it later.
    fn pause(&self);

    /// Ends it.
    fn end(&self);
}

/// Does some work while a thread runs this task, which is paused behind it.
pub fn work_beside<W: SideTask + Sync, X, F: FnOnce() -> X, T: Threads + Wait + Sync>(
    rt: &T,
    side_task: &W,
    work: F,
) -> X
    requires { F.pre work }
    ensures { F.post work result }
{
    let (_ran, done) = thread::join(
        rt,
        move || -> ()
            requires { IsSync T.row × IsSync W.row }
        { side_task.run(rt) },
        move || -> X
            requires { F.pre work }
            ensures { F.post work result }
        {
            let done = work();
            side_task.pause();
            done
        },
    );
    done
}

/// Serves all connections while a thread runs this task. If no thread can be started, the task runs last, when it has
/// nothing left to do. Error: why connections weren't served.
pub fn serve_beside<
    H: Hosting + Sync,
    V: Watch + Sync,
    A: Admission + Sync,
    K: CommitHook + Sync,
    E: Renewals + Sync,
    W: SideTask + Sync,
    G: BackgroundTask,
    T: Threads + Wait + Net + Clock + Sync,
>(
    rt: &T,
    alloc: Global,
    config: &ServerConfig<'_, V, A, K, E>,
    host: H,
    side_task: &W,
    beside: &G,
) -> Result<Vec<Stub>, ServeError>
where
    H::Session: Send,
    requires { (0 < config.now.terms.workers) × (config.now.terms.workers ≤ 16) }
{
    let (_ran, served) = thread::join(
        rt,
        move || -> ()
            requires { IsSync T.row × IsSync W.row }
        { side_task.run(rt) },
        move || -> Result<Vec<Stub>, ServeError>
            requires { IsSync T.row × IsSync V.row × IsSync A.row × IsSync K.row × IsSync E.row × IsSync H.row × IsSend H.Session.row
                × (0 < config.now.terms.workers) × (config.now.terms.workers ≤ 16) }
        {
            let served = serve_all(rt, alloc, config, host, beside);
            side_task.end();
            served
        },
    );
    served
}
