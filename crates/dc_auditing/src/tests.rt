//! What no clause says: the lines byte for byte, and how audits end.
use crate::audit_command;
use dc_config::MemoryFiles;
use dc_event::MemorySink;
use dc_status::Status;
use std::alloc::{AllocError, Global};
use std::test::Fail;
use std::thread::Threads;

/// The head of a script but for its first two lines.
const HEAD: &str = "forwardonly no
allow 127
zone @ 198.51.100.1
seed 0000000000000000000000000000000000000000000000000000000000000000
begin
";

/// A cache size that is judged, and one that isn't.
const SMALL: &str = "dnscache-script 1\ncachesize 1000000\n";

const LARGE: &str = "dnscache-script 1\ncachesize 10000001\n";

/// A request for the address of localhost.
const ASKED: &str =
    "at 1000000 request 127.0.0.1 4096 123401000001000000000000096c6f63616c686f73740000010001\n";

/// What is done before the first event, and at the request.
const STARTED: &str = "line starting\n";

const ANSWERED: &str = "line query 1 7f000001:1000:1234 1 localhost.
reply 127.0.0.1 4096 123481800001000100000000096c6f63616c686f73740000010001c00c00010001000a000000047f000001
";

const SENT: &str = "line sent 1 43\n";

/// A file of these parts, joined.
struct File {
    path: &'static str,
    parts: &'static [&'static str],
}

/// Scripts of one request with recorded texts: as it is, without its last line, without its first line, of a script without its last line,
/// and of too large a cache; and a script and a text that are alone.
const FILES: &[File] = &[
    File {
        path: "as_it_is",
        parts: &[SMALL, HEAD, ASKED, "end\n"],
    },
    File {
        path: "as_it_is.actions",
        parts: &[STARTED, ANSWERED, SENT],
    },
    File {
        path: "cut",
        parts: &[SMALL, HEAD, ASKED, "end\n"],
    },
    File {
        path: "cut.actions",
        parts: &[STARTED, ANSWERED],
    },
    File {
        path: "headless",
        parts: &[SMALL, HEAD, ASKED, "end\n"],
    },
    File {
        path: "headless.actions",
        parts: &[ANSWERED, SENT],
    },
    File {
        path: "endless",
        parts: &[SMALL, HEAD, ASKED],
    },
    File {
        path: "endless.actions",
        parts: &[STARTED, ANSWERED, SENT],
    },
    File {
        path: "large",
        parts: &[LARGE, HEAD, ASKED, "end\n"],
    },
    File {
        path: "large.actions",
        parts: &[STARTED, ANSWERED, SENT],
    },
    File {
        path: "more",
        parts: &[SMALL, HEAD, ASKED, "end\n"],
    },
    File {
        path: "more.actions",
        parts: &[STARTED, ANSWERED, SENT, STARTED],
    },
    File {
        path: "script_alone",
        parts: &[SMALL, HEAD, ASKED, "end\n"],
    },
    File {
        path: "text_alone.actions",
        parts: &[STARTED, ANSWERED, SENT],
    },
];

/// The files, of which these calls fail.
fn files(alloc: Global, fails: &[u64]) -> Result<MemoryFiles, AllocError> {
    let mut files = Vec::new(alloc);
    for file in FILES {
        let mut bytes = Vec::new(alloc);
        for part in file.parts {
            bytes.extend_from_slice(part.as_bytes())?;
        }
        files.push((String::from_str(alloc, file.path)?, bytes))?;
    }
    Ok(MemoryFiles::new(files, fails.to_vec(alloc)?))
}

/// An audit of these names, where these calls on the files fail and the sink has so much room: how it ended, and what was written.
fn audit(
    rt: &(impl Threads + Sync),
    alloc: Global,
    words: &[&str],
    fails: &[u64],
    room: usize,
) -> Result<(Status, Vec<u8>), AllocError> {
    let mut names = Vec::new(alloc);
    for word in words {
        names.push(String::from_str(alloc, word)?)?;
    }
    let mut sink = MemorySink::new(alloc, room, Vec::new(alloc))?;
    let status = audit_command(rt, alloc, &names, &mut files(alloc, fails)?, &mut sink);
    Ok((status, sink.held().to_vec(alloc)?))
}

/// A line of each name, in the order of the words.
#[test]
fn lines_of_names(rt: HostRuntime) -> Result<(), Fail> {
    let words = [
        "more",
        "as_it_is",
        "cut",
        "headless",
        "endless",
        "large",
        "script_alone",
        "text_alone",
        "nothing",
        "as_it_is",
    ];
    let (status, text) = audit(&rt, rt.alloc(), &words, &[], 4096)?;
    assert_eq!(rt; status, Status::Unequal);
    assert_eq!(rt;
        text.as_slice(),
        b"differs more 2
same as_it_is
differs cut 1
differs headless 0
bad endless 9
large large
missing script_alone
missing text_alone
missing nothing
same as_it_is
"
            .as_slice()
    );
    Ok(())
}

/// How audits end: all the same, one that isn't, a sink without room, and files that fail at the first and at the last call.
#[test]
fn ends(rt: HostRuntime) -> Result<(), Fail> {
    for (words, fails, room, wanted, written) in [
        (
            &["as_it_is"][..],
            &[][..],
            100,
            Status::Done,
            &b"same as_it_is\n"[..],
        ),
        (&["cut"], &[], 100, Status::Unequal, b"differs cut 1\n"),
        (&["as_it_is"], &[], 3, Status::WriteFault, b"sam"),
        (&["as_it_is"], &[1], 100, Status::FilesFault, b""),
        (&["cut", "as_it_is"], &[4], 100, Status::FilesFault, b""),
    ] {
        let (status, text) = audit(&rt, rt.alloc(), words, fails, room)?;
        assert_eq!(rt; status, wanted);
        assert_eq!(rt; text.as_slice(), written);
    }
    Ok(())
}
