// Writes a text as a whole. std's `write!` gives a writer each piece of the text by a `write_all` of its own, and standard output does not
// collect them; here the pieces are collected, and go to the writer by one `write_all` where they have no more than 160 bytes.
ghost use Rattle.std.specs.Prelude.{◌≡◌, [], ◌++◌, OnOk, IsOk, IfSome};
ghost use Rattle.std.specs.Fmt.{with_newline};
ghost use Rattle.std.specs.Io.KnownBytes.{Appends, append_known};

use crate::line::{Line, ROOM};
use std::fmt::Display;
use std::io::Write;
use std::{fmt, io};

// A writer of pieces, the bytes that wait for it, and the error of the write that failed, which `fmt::Error` cannot carry.
#[derive(Drop)]
struct Pieces<'a, W> {
    inner: &'a mut W,
    waiting: Line,
    error: Option<io::Error>,
}

impl<W: Write> Pieces<'_, W> {
    // Sends what waits.
    fn send(&mut self) -> io::Result<()>
        ensures same_writer { self.new.inner.ghost_name ≡ self.old.inner.ghost_name }
        ensures empty { OnOk result (self.new.waiting ≡ []) }
        ensures bytes { OnOk result (Appends (W.contents self.old.inner.now) (W.contents self.new.inner.now) self.old.waiting) }
    {
        self.inner.write_all(self.waiting.as_slice())?;
        self.waiting.clear();
        Ok(())
    }

    // Takes a piece, which then waits. Where it has no room, what waits is sent first; where it is longer than the array, it is sent too.
    fn put(&mut self, piece: &[u8]) -> io::Result<()>
        ensures same_writer { self.new.inner.ghost_name ≡ self.old.inner.ghost_name }
        ensures bytes { OnOk result (Appends (append_known (W.contents self.old.inner.now) self.old.waiting)
            (append_known (W.contents self.new.inner.now) self.new.waiting) piece.now) }
    {
        if piece.len() <= self.waiting.room() {
            self.waiting.add(piece);
            return Ok(());
        }
        self.send()?;
        if piece.len() > ROOM {
            return self.inner.write_all(piece);
        }
        self.waiting.add(piece);
        Ok(())
    }
}

impl<W: Write> fmt::Write for Pieces<'_, W> {
    ghost write_str_gives = { λ s bs t. (t.inner.ghost_name ≡ s.inner.ghost_name)
        × Appends (append_known (W.contents s.inner.now) s.waiting) (append_known (W.contents t.inner.now) t.waiting) bs };

    fn write_str(&mut self, s: &str) -> fmt::Result {
        match self.put(s.as_bytes()) {
            Ok(()) => Ok(()),
            Err(error) => {
                self.error = Some(error);
                Err(fmt::Error)
            }
        }
    }
}

// Writes bytes, and a text behind them, as a whole.
pub(crate) fn write_behind<W: Write, D: Display + Drop>(
    out: &mut W,
    front: &[u8],
    text: D,
) -> io::Result<()>
    ensures { OnOk result (IfSome (D.output text) (λ bs. Appends (W.contents out.old) (W.contents out.new) (front.now ++ bs))) }
{
    let mut pieces = Pieces {
        inner: out,
        waiting: Line::empty(),
        error: None,
    };
    pieces.put(front)?;
    let formatted = fmt::Write::write_fmt(&mut pieces, text);
    let Pieces {
        inner,
        waiting,
        error,
    } = pieces;
    finish(inner, waiting.as_slice(), error, formatted)
}

// Sends what waits at the end, or says what failed before.
fn finish<W: Write>(
    out: &mut W,
    waiting: &[u8],
    error: Option<io::Error>,
    formatted: fmt::Result,
) -> io::Result<()>
    ensures { OnOk result (IsOk formatted × Appends (W.contents out.old) (W.contents out.new) waiting.now) }
{
    match (error, formatted) {
        (Some(error), _) => Err(error),
        (None, Err(error)) => Err(io::Error::from(error)),
        (None, Ok(())) => out.write_all(waiting),
    }
}

// A writer to which `write!` and `writeln!` write a text as a whole, as in `writeln!(Whole(out), "{count}")`.
#[derive(Drop)]
pub struct Whole<'a, W>(pub &'a mut W);

impl<W: Write> Whole<'_, W> {
    pub fn write_fmt<D: Display + Drop>(self, text: D) -> io::Result<()>
        ensures bytes { OnOk result (IfSome (D.output text) (Appends (W.contents self.entry.0.now) (W.contents self.exit.0.now))) }
    {
        write_behind(self.0, b"", text)
    }

    pub fn writeln<D: Display + Drop>(self, text: D) -> io::Result<()>
        ensures bytes { OnOk result (IfSome (with_newline (D.output text)) (Appends (W.contents self.entry.0.now) (W.contents self.exit.0.now))) }
    {
        write_behind(self.0, b"", format_args!("{text}\n"))
    }
}
