// What the programs write to standard output and to standard error.
ghost use Rattle.std.specs.Prelude.{◌≡◌, IsOk, is_some, nat_eq, not, ◌&&◌};
ghost use Rattle.std.specs.List.{starts_with};
ghost use Rattle.print.specs.Texts.{text};

use std::fmt;
use std::fmt::Write as _;
use std::io::{Error, Stderr, Write};

// Writes a text to standard output.
// Touches the outside alone: no clause can say what that gives or takes.
pub fn put(rt: &HostRuntime, text: &[u8]) {
    say(&mut rt.stdout(), text);
}

// Writes a text to standard output or to standard error.
// Touches the outside alone: no clause can say what that gives or takes.
pub fn say(out: &mut impl Write, text: &[u8]) {
    let _ = out.write_all(text);
}

// Writes a line to standard error: what failed, a colon and the error's text.
// Touches the outside alone: no clause can say what that gives or takes.
pub fn fail(rt: &HostRuntime, what: &[u8], error: &Error) {
    say(&mut rt.stderr(), what);
    say(&mut rt.stderr(), b": ");
    let mut reason = Reason {
        out: Some(rt.stderr()),
    };
    let _ = write!(reason, "{error}");
    say(&mut rt.stderr(), b"\n");
}

// Writes an error's text, but not its number, which std puts after it in brackets: from there on it writes nothing.
#[derive(Drop)]
struct Reason {
    out: Option<Stderr>,
}

impl fmt::Write for Reason {
    ghost write_str_gives = { λ r s t. is_some t.out ≡ (is_some r.out && not (starts_with nat_eq s (text " (os error"))) };

    fn write_str(&mut self, s: &str) -> fmt::Result
        ensures ok { IsOk result }
        ensures state { is_some self.new.out ≡ (is_some self.old.out && not (starts_with nat_eq s.now (text " (os error"))) }
    {
        if s.starts_with(" (os error") {
            self.out = None;
        }
        if let Some(out) = &mut self.out {
            say(out, s.as_bytes());
        }
        Ok(())
    }
}
