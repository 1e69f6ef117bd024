ghost use Rattle.std.specs.Prelude.{◌≡◌, ◌<◌, ◌≤◌, None, IfOk, IfSome, OnOk, OnErr, length, take};
ghost use Rattle.std.specs.Io.KnownBytes.{Appends, Consumes, IsAtEnd};
ghost use Rattle.eb_io.specs.Faults.{HasRisen, one_more};
ghost use Rattle.eb_io.specs.Source.{got, IsCount};

use crate::sink::{Sink, SinkFailed};
use crate::source::{Got, Source};
use std::io::{Read, Write};
use std::marker::Model;

/// A source over a reader, as standard input. It tells no bytes; contracts see it as the reader and
/// the number of its faults.
#[derive(Drop)]
pub struct StdSource<R: Read> {
    reader: R,
    faults: u64,
}

impl<R: Read> Model for StdSource<R> {
    ghost use Rattle.eb_io.specs.Standard.{Standard, standard_code};

    ghost Value = { Standard R };

    ghost coded = { standard_code R.code };

    ghost view = { λ s. record { inner = s.reader; faults = s.faults } };
}

impl<R: Read> StdSource<R> {
    /// The source of what the reader gives. Takes no memory.
    pub fn new(reader: R) -> StdSource<R>
        ensures { result ≡ record { inner = reader; faults = 0 } }
    {
        StdSource { reader, faults: 0 }
    }
}

impl<R: Read> Source for StdSource<R> {
    ghost left = { λ _. None };

    ghost faults = { λ s. s.faults };

    /// One read of the reader: `End` where it gives no bytes, and `Failed`, with one fault more,
    /// where it answers an error.
    fn read(&mut self, into: &mut [u8]) -> Got
        requires { 0 < length into.old }
        ensures count { IsCount (length into.old) result }
        ensures later { self.old.faults ≤ self.new.faults }
        ensures failed { result ≡ Got.Failed → HasRisen self.old.faults self.new.faults }
        ensures faults { result ≡ Got.Failed → self.new.faults ≡ one_more self.old.faults }
        ensures no_fault { (result ≡ Got.Failed → ⊥) → self.new.faults ≡ self.old.faults }

        // of a reader whose bytes are known, these bytes were read, and at the end none is left
        ensures bytes { Consumes (R.remaining self.old.inner) (R.remaining self.new.inner) (got result into.new) }
        ensures end { result ≡ Got.End → IsAtEnd (R.remaining self.new.inner) }
    {
        match self.reader.read(into) {
            Ok(0) => Got::End,
            Ok(count) => Got::Bytes(count),
            Err(_) => {
                self.faults = self.faults.saturating_add(1);
                Got::Failed
            }
        }
    }
}

/// A sink over a writer, as standard output, which is flushed at each put. It tells no bytes;
/// contracts see it as the writer and the number of its faults.
#[derive(Drop)]
pub struct StdSink<W: Write> {
    writer: W,
    faults: u64,
}

impl<W: Write> Model for StdSink<W> {
    ghost use Rattle.eb_io.specs.Standard.{Standard, standard_code};

    ghost Value = { Standard W };

    ghost coded = { standard_code W.code };

    ghost view = { λ s. record { inner = s.writer; faults = s.faults } };
}

impl<W: Write> StdSink<W> {
    /// The sink to the writer. Takes no memory.
    pub fn new(writer: W) -> StdSink<W>
        ensures { result ≡ record { inner = writer; faults = 0 } }
    {
        StdSink { writer, faults: 0 }
    }
}

// How many bytes were written and flushed; `None` where the writer failed or took nothing.
fn write_and_flush<W: Write>(writer: &mut W, bytes: &[u8]) -> Option<usize>
    ensures count { IfSome result (λ n. (1 ≤ n) × (n ≤ length bytes.now)) }
    ensures bytes { IfSome result (λ n. Appends (W.contents writer.old) (W.contents writer.new) (take n bytes.now)) }
{
    let count = writer.write(bytes).ok()?;
    writer.flush().ok()?;
    if count == 0 { None } else { Some(count) }
}

impl<W: Write> Sink for StdSink<W> {
    ghost taken = { λ _. None };

    ghost faults = { λ s. s.faults };

    /// One write and one flush of the writer. It fails, with one fault more, where either answers
    /// an error, and where the write takes nothing.
    fn put(&mut self, bytes: &[u8]) -> Result<usize, SinkFailed>
        requires { 0 < length bytes.now }
        ensures count { IfOk result (λ n. (1 ≤ n) × (n ≤ length bytes.now)) }
        ensures later { self.old.faults ≤ self.new.faults }
        ensures failed { OnErr result (HasRisen self.old.faults self.new.faults) }
        ensures faults { OnErr result (self.new.faults ≡ one_more self.old.faults) }
        ensures no_fault { OnOk result (self.new.faults ≡ self.old.faults) }

        // of a writer whose bytes are known, these bytes were written
        ensures bytes { IfOk result (λ n. Appends (W.contents self.old.inner) (W.contents self.new.inner) (take n bytes.now)) }
    {
        match write_and_flush(&mut self.writer, bytes) {
            Some(count) => Ok(count),
            None => {
                self.faults = self.faults.saturating_add(1);
                Err(SinkFailed)
            }
        }
    }
}
