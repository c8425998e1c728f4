// Document 02, T-13: prints how many strings of n ASCII bytes the first reading's unescaping accepts, and how many it refuses with 5.
// `counting::put_count_lines` says what is printed. It reads nothing.

#![tactic(auto)]

use std::io::ErrorKind;
use std::process::ExitCode;

// What a shell gives where a program is ended by SIGPIPE: the reader of the output is gone.
const READER_GONE: u8 = 141;

fn main(rt: HostRuntime) -> ExitCode {
    let mut out = [0u8; 820];
    let end = counting::put_count_lines(&mut out);
    match rt.write_all(&out[..end]) {
        Ok(()) => ExitCode::SUCCESS,
        Err(error) if error.kind() == ErrorKind::BrokenPipe => ExitCode::from(READER_GONE),
        Err(_) => {
            let _ = eprintln!(rt; "countcpim: standard output cannot be written");
            ExitCode::SUCCESS
        }
    }
}
