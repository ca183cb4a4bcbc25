//! Redpile: plays redstone builds. The words of the command go to `redpile_top::redpile`, which
//! is proved against the rules of the world.
#![tactic(auto)]

use redpile_top::{Status, redpile};
use rp_io::{FileInputs, StdSink, put_all};
use rp_text::NoMemory;
use std::env;
use std::io::ErrorKind;
use std::process::ExitCode;

/// The words behind the program's own name. Words that aren't text count as none.
fn words(rt: &HostRuntime) -> Result<Vec<String>, NoMemory> {
    let mut words = Vec::new(rt.alloc());
    match env::args(rt) {
        Ok(arguments) => {
            for word in arguments.skip(1) {
                words.push(word)?;
            }
        }
        Err(error) if error.kind() == ErrorKind::OutOfMemory => return Err(NoMemory),
        Err(_) => {}
    }
    Ok(words)
}

fn main(rt: HostRuntime) -> ExitCode {
    let mut inputs = FileInputs::new(rt);
    let mut out = StdSink::new(rt.stdout());
    let mut err = StdSink::new(rt.stderr());
    let status = match words(&rt) {
        Ok(words) => redpile(rt.alloc(), &words, &mut inputs, &mut out, &mut err),
        Err(_) => {
            let _line = put_all(&mut err, b"redpile: out of memory\n");
            Status::NoMemory
        }
    };
    ExitCode::from(status.code())
}
