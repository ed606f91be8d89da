// Runs the cases of `stdin`, one to a line, and writes an answer line for each: what the library says of inputs made by
// tests/reference, to be compared with what the reference says. A line is decimal numbers parted by blanks, the first of
// which names the call (tests/reference/README.md). Nothing here is part of the library; it is proved to be safe and to end.
#![tactic(auto)]

mod answers;

use std::io::Read;
use vectors::numbers;
use vectors::numbers::Case;

// Feeds what was read, and answers each line that it ends.
fn take(rt: &impl Print, case: Case, bytes: &[u8]) -> Case {
    let mut now = case;
    for b in bytes {
        if *b == b'\n' {
            answers::answer(rt, now);
            now = numbers::empty();
        } else {
            now = numbers::fed(now, *b);
        }
    }
    now
}

// A proved loop has to end, so this one counts its reads up to a number that no run uses up.
fn main(rt: HostRuntime) {
    let mut buf = [0; 65536];
    let mut case = numbers::empty();
    for _ in 0..u32::MAX {
        let Ok(n) = rt.stdin().read(&mut buf) else {
            return;
        };
        if n == 0 {
            return;
        }
        case = take(&rt, case, &buf[..n]);
    }
}
