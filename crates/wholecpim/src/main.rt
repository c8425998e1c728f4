// Reads a notice on standard input and says whether what the gateway would write for it comes back whole, and if not what is lost and why.
// `report::telling::tell` says what is printed.

#![tactic(auto)]

use std::io::ErrorKind;
use std::process::ExitCode;

// What a shell gives where a program is ended by SIGPIPE: the reader of the output is gone.
const READER_GONE: u8 = 141;

fn main(rt: HostRuntime) -> ExitCode {
    let mut text = [0u8; 65537];
    let got = input::read_whole(&rt, &mut rt.stdin(), &mut text);
    if !got.whole {
        let _ = eprintln!(rt; "wholecpim: standard input cannot be read");
        return ExitCode::SUCCESS;
    }
    let n = got.count;
    let mut out = [0u8; 936];
    let end = report::telling::tell(&text[..n], &mut out);
    match rt.write_all(&out[..end]) {
        Ok(()) => ExitCode::SUCCESS,
        Err(error) if error.kind() == ErrorKind::BrokenPipe => ExitCode::from(READER_GONE),
        Err(_) => {
            let _ = eprintln!(rt; "wholecpim: standard output cannot be written");
            ExitCode::SUCCESS
        }
    }
}
