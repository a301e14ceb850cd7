//! What a tool says of how it ended.
ghost use Rattle.std.specs.Prelude.{◌≡◌};
ghost use Rattle.std.specs.Process.{exit_status};
ghost use Rattle.dc_tool_host.specs.Exit.{exit_of};

use dc_config::HostFiles;
use dc_stub::ToolStatus;
use std::io::Eprint;
use std::process::ExitCode;

/// Why a tool ended, unless it ended well. The number of a line is told behind it.
fn text_of(status: ToolStatus) -> &'static str {
    match status {
        ToolStatus::Done => "",
        ToolStatus::Usage => "bad arguments",
        ToolStatus::NoAnswer => "no answer",
        ToolStatus::NoPort => "no local port",
        ToolStatus::Malformed => "malformed answer",
        ToolStatus::Ended => "network ended",
        ToolStatus::Spent => "too many events",
        ToolStatus::FilesFault => "unable to read files",
        ToolStatus::WriteFault => "unable to write output",
        ToolStatus::WorldFault => "network or log fault",
        ToolStatus::BadScript(_) => "bad script line",
        ToolStatus::NoMemory => "out of memory",
        ToolStatus::ReadFault => "unable to read input",
        ToolStatus::LongLine(_) => "line too long",
    }
}

/// Writes which folder or file couldn't be read, and why, where one couldn't.
pub(crate) fn tell_unreadable<R: Eprint, F>(rt: &R, name: &str, files: &HostFiles<F>) {
    if let Some(unreadable) = files.unreadable() {
        let _told = eprintln!(rt; "{name}: warning: {unreadable}");
    }
}

/// Writes why a tool ended, unless it ended well. Where that can't be written, nothing is.
pub(crate) fn report<R: Eprint>(rt: &R, name: &str, status: ToolStatus) {
    let _told = match status {
        ToolStatus::Done => Ok(()),
        ToolStatus::BadScript(line) | ToolStatus::LongLine(line) => {
            eprintln!(rt; "{name}: fatal: {} {line}", text_of(status))
        }
        _ => eprintln!(rt; "{name}: fatal: {}", text_of(status)),
    };
}

/// The exit status: 0 where all was written, 100 for words that aren't usable, and else 111.
pub(crate) fn exit_code(status: ToolStatus) -> ExitCode
    ensures { exit_status result ≡ exit_of status }
{
    ExitCode::from(match status {
        ToolStatus::Done => 0,
        ToolStatus::Usage => 100,
        _ => 111,
    })
}
