//! A script's events in two runs, with the cache kept between them.
ghost use Rattle.std.specs.Prelude.{◌≡◌, ◌+◌, ◌≤◌, length, IfOk};

use dc_config::{Env, QuietFiles};
use dc_event::{QuietSink, QuietSource};
use dc_keep::keep_command;
use dc_script::{LineRest, ScriptWorld};
use std::alloc::{AllocError, Global};
use std::io;

/// A client asks for www.example.com, which is resolved by way of two referrals.
const ASKED: &[u8] =
    b"at 1000000 request 127.0.0.1 4096 00010100000100000000000003777777076578616d706c6503636f6d0000010001
at 1000050 datagram 1 198.51.100.1 53 eeb28000000100000001000103777777076578616d706c6503636f6d000001000103636f6d00000200010002a3000008026e7303636f6d00026e7303636f6d00000100010002a3000004c6336402
at 1000100 datagram 2 198.51.100.2 53 092d8000000100000001000103777777076578616d706c6503636f6d0000010001076578616d706c6503636f6d00000200010002a3000010026e73076578616d706c6503636f6d00026e73076578616d706c6503636f6d00000100010002a3000004c6336403
at 1000150 datagram 3 198.51.100.3 53 b3d78400000100010000000003777777076578616d706c6503636f6d000001000103777777076578616d706c6503636f6d00000100010000012c0004c0000201
at 1010150 request 127.0.0.1 4096 00020100000100000000000003777777076578616d706c6503636f6d0000010001
end
";

/// Ten seconds later it asks again.
const ASKED_AGAIN: &[u8] =
    b"at 1010150 request 127.0.0.1 4096 00020100000100000000000003777777076578616d706c6503636f6d0000010001
end
";

/// The most bytes of a text.
const MOST_TEXT: usize = 100_000;

/// The most bytes of an image.
const MOST_IMAGE: usize = 1_001_000;

/// Sets a variable.
fn set(alloc: Global, env: &mut Env, name: &str, value: &str) -> Result<(), AllocError>
    requires { length env.old + 1 ≤ 16 }
    ensures { length env.new ≤ length env.old + 1 }
{
    let name = String::from_str(alloc, name)?;
    let value = String::from_str(alloc, value)?;
    env.set(name, value);
    Ok(())
}

/// The environment, with so many events at most where EVENTS is set.
fn env_of(alloc: Global, events: Option<&str>) -> Result<Env, AllocError> {
    let mut env = Env::new(alloc)?;
    set(alloc, &mut env, "IP", "127.0.0.1")?;
    set(alloc, &mut env, "IPSEND", "0.0.0.0")?;
    set(alloc, &mut env, "CACHESIZE", "1000000")?;
    set(alloc, &mut env, "IMAGE", "image")?;
    if let Some(events) = events {
        set(alloc, &mut env, "EVENTS", events)?;
    }
    Ok(env)
}

/// The folder: one server of the root, and clients of 127.
fn files_of(alloc: Global) -> Result<QuietFiles, AllocError> {
    let mut files = Vec::new(alloc);
    let server = b"198.51.100.1\n".to_vec(alloc)?;
    files.push((String::from_str(alloc, "servers/@")?, server))?;
    files.push((String::from_str(alloc, "ip/127")?, Vec::new(alloc)))?;
    Ok(QuietFiles::new(files))
}

/// Serves these events with the cache of an image, under a seed of zeros. Says what is done and how it ends, and gives the image that is left.
fn serve(
    rt: &HostRuntime,
    image: Vec<u8>,
    script: &[u8],
    events: Option<&str>,
) -> io::Result<Vec<u8>> {
    let alloc = rt.alloc();
    let source = QuietSource::new(script.to_vec(alloc)?);
    let sink = QuietSink::new(alloc, MOST_TEXT)?;
    let mut world = ScriptWorld::new(alloc, LineRest::new(alloc)?, 0, source, sink)?;
    let mut left = QuietSink::new(alloc, MOST_IMAGE)?;
    let session = keep_command(
        alloc,
        &env_of(alloc, events)?,
        &mut files_of(alloc)?,
        &mut QuietSource::new([0u8; 32].to_vec(alloc)?),
        &mut QuietSource::new(image),
        &mut left,
        &mut world,
        u64::MAX,
    );
    let left = left.held().unwrap_or(b"").to_vec(alloc)?;
    let done = str::from_utf8(world.sink().held().unwrap_or(b"")).unwrap_or("no text");
    println!(rt.stdout();
        "{}{:?}, an image of {} bytes",
        done,
        session.status,
        left.len()
    )?;
    Ok(left)
}

/// Serves four events from no image, and one from the image that this leaves.
pub fn say_both(rt: &HostRuntime) -> io::Result<()> {
    let first = serve(rt, Vec::new(rt.alloc()), ASKED, Some("4"))?;
    let _second = serve(rt, first, ASKED_AGAIN, None)?;
    Ok(())
}
