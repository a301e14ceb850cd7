//! The whole program.
ghost use Rattle.std.specs.Prelude.{◌≡◌, IfOk};

use crate::image::{FreshImage, KeptImage};
use crate::{Invocation, NoMemory, Unread, environment, exit_code, report, shares_port, words};
use dc_commands::{Command, dnscache};
use dc_config::{Env, HostFiles, Variable};
use dc_event::{QuietSink, QuietSource, ReaderSource, Sink, Source, WriterSink};
use dc_os::Os;
use dc_sock::SocketWorld;
use dc_status::Status;
use std::alloc::Global;
use std::io::{Eprint, Write};
use std::net::Net;
use std::process::ExitCode;
use std::sync::Wait;
use std::thread::Threads;
use std::time::Clock;

/// The port of name servers, on which clients are served.
const DNS_PORT: u16 = 53;

/// What a process asks for.
#[derive(Drop)]
struct Asked {
    /// The words behind the program's name.
    words: Vec<String>,
    /// The variables.
    environment: Env,
    /// Whether clients' sockets share their port.
    shares_port: bool,
}

impl Asked {
    /// What a process asks for. Words that can't be read count as unknown ones.
    fn of<P: Invocation>(alloc: Global, process: &P) -> Result<Asked, Status> {
        let words = match words(alloc, process) {
            Ok(words) => words,
            Err(Unread::Strange) => return Err(Status::Usage),
            Err(Unread::NoMemory) => return Err(Status::NoMemory),
        };
        let Ok(environment) = environment(alloc, process) else {
            return Err(Status::NoMemory);
        };
        let Ok(shares_port) = shares_port(alloc, process) else {
            return Err(Status::NoMemory);
        };
        Ok(Asked {
            words,
            environment,
            shares_port,
        })
    }

    /// The path of the image, where the cache is kept.
    fn image(&self) -> Option<&str> {
        if Command::of(&self.words, &self.environment) == Command::Keep {
            self.environment.get(Variable::Image.name())
        } else {
            None
        }
    }
}

/// The world of a system's own sockets. Clients are served on the port of name servers.
fn world<R: Net>(
    system: &R,
    alloc: Global,
    shares_port: bool,
) -> Result<SocketWorld<&R, Os<&R>>, NoMemory>
    ensures port { IfOk result (λ world. world.port ≡ 53) }
{
    let calls = Os::new(system, alloc)?.serving(DNS_PORT, shares_port);
    SocketWorld::new(system, calls, alloc)
}

/// Tells on standard error which call of the system the service couldn't go on without, and why it failed, where one did.
fn tell_failure<R: Net + Wait + Clock + Eprint>(rt: &HostRuntime, calls: &Os<&R>) {
    if let Some(failure) = calls.failure() {
        let _told = writeln!(rt.stderr(), "dnscache: warning: {failure}");
    }
}

/// Tells on standard error which folder or file couldn't be read, and why, where one couldn't.
fn tell_unreadable<R>(rt: &HostRuntime, files: &HostFiles<R>) {
    if let Some(unreadable) = files.unreadable() {
        let _told = writeln!(rt.stderr(), "dnscache: warning: {unreadable}");
    }
}

/// How a run ended, where the rest of its log was written or not: one that ended well and whose log isn't whole is a fault of the world.
fn ended(status: Status, logged: bool) -> Status {
    match status {
        Status::Done | Status::Spent if !logged => Status::WorldFault,
        status => status,
    }
}

/// Does what is asked for, with an image to begin with and one to leave.
fn run<R: Threads + Sync + Net + Wait + Clock + Eprint, I: Source, O: Sink>(
    rt: &HostRuntime,
    system: &R,
    asked: &Asked,
    image_in: &mut I,
    image_out: &mut O,
) -> Status {
    let Ok(mut world) = world(system, rt.alloc(), asked.shares_port) else {
        return Status::NoMemory;
    };
    let mut files = HostFiles::new(rt);
    let status = dnscache(
        system,
        rt.alloc(),
        &asked.words,
        &asked.environment,
        &mut files,
        &mut ReaderSource::new(rt.stdin()),
        &mut WriterSink::new(rt.stdout()),
        &mut world,
        image_in,
        image_out,
        u64::MAX,
    );
    let status = ended(status, world.finish());
    if status == Status::WorldFault {
        tell_failure(rt, world.system());
    }
    if status == Status::FilesFault {
        tell_unreadable(rt, &files);
    }
    status
}

/// Does what is asked for where no cache is kept.
fn run_plain<R: Threads + Sync + Net + Wait + Clock + Eprint>(
    rt: &HostRuntime,
    system: &R,
    asked: &Asked,
) -> Status {
    let Ok(mut none) = QuietSink::new(rt.alloc(), 0) else {
        return Status::NoMemory;
    };
    let mut nothing = QuietSource::new(Vec::new(rt.alloc()));
    run(rt, system, asked, &mut nothing, &mut none)
}

/// Serves with a cache that is kept at this path. The image that is left takes the place of the one before where serving ended well.
fn run_kept<R: Threads + Sync + Net + Wait + Clock + Eprint>(
    rt: &HostRuntime,
    system: &R,
    asked: &Asked,
    path: &str,
) -> Status {
    let Ok(mut fresh) = FreshImage::for_path(rt, rt.alloc(), path) else {
        return Status::NoMemory;
    };
    let mut image_in = ReaderSource::new(KeptImage::at(rt, path));
    let mut image_out = WriterSink::new(&mut fresh);
    let status = run(rt, system, asked, &mut image_in, &mut image_out);
    match status {
        Status::Done | Status::Spent => match fresh.keep() {
            Ok(()) => status,
            Err(_) => Status::WriteFault,
        },
        _ => {
            fresh.discard();
            status
        }
    }
}

/// Does what a process asks for, without end, with the sockets and the clock of a system, with files, standard input and standard output, and
/// judges recorded runs in threads.
pub fn run_system<P: Invocation, R: Net + Wait + Clock + Eprint + Threads + Sync>(
    rt: &HostRuntime,
    system: &R,
    process: &P,
) -> Status {
    let asked = match Asked::of(rt.alloc(), process) {
        Ok(asked) => asked,
        Err(status) => return status,
    };
    match asked.image() {
        Some(path) => run_kept(rt, system, &asked, path),
        None => run_plain(rt, system, &asked),
    }
}

/// The program: it does what the words ask for, says on standard error why it ended, and ends with the exit status of that.
pub fn start<P: Invocation, R: Net + Wait + Clock + Eprint + Threads + Sync>(
    rt: &HostRuntime,
    system: &R,
    process: &P,
) -> ExitCode {
    let status = run_system(rt, system, process);
    report(&mut WriterSink::new(rt.stderr()), &status);
    exit_code(&status)
}
