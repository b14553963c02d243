//! The real files, standard input and standard output. They tell no content.
ghost use Rattle.std.specs.Prelude.{None};

use gh_base::{Failed, Files, Sink, Source};
use std::fs;
use std::io::{Read, Write};
use std::rt::Files as Disk;

/// A source over any reader.
#[derive(Drop)]
pub struct ReaderSource<R> {
    inner: R,
    faults: u64,
    mark: u8,
}

/// Standard input.
pub type StdinSource<R> = ReaderSource<R>;

impl<R> ReaderSource<R> {
    /// Standard input is the source of no name.
    pub fn new(inner: R) -> ReaderSource<R> {
        ReaderSource {
            inner,
            faults: 0,
            mark: 0,
        }
    }
}

impl<R: Read> Source for ReaderSource<R> {
    ghost left = { λ _. None };

    ghost faults = { λ s. s.faults };

    ghost mark = { λ s. s.mark };

    fn take(&mut self, buf: &mut [u8]) -> Result<usize, Failed> {
        match self.inner.read(buf) {
            Ok(count) => Ok(count),
            Err(_) => {
                self.faults = self.faults.saturating_add(1);
                Err(Failed)
            }
        }
    }
}

/// A sink over any writer.
#[derive(Drop)]
pub struct WriterSink<W> {
    inner: W,
    faults: u64,
}

/// Standard output.
pub type StdoutSink<W> = WriterSink<W>;

impl<W> WriterSink<W> {
    pub fn new(inner: W) -> WriterSink<W> {
        WriterSink { inner, faults: 0 }
    }
}

impl<W: Write> Sink for WriterSink<W> {
    ghost held = { λ _. None };

    ghost faults = { λ s. s.faults };

    fn give(&mut self, piece: &[u8]) -> Result<usize, Failed> {
        match self.inner.write(piece) {
            Ok(count) if count > 0 => Ok(count),
            _ => {
                self.faults = self.faults.saturating_add(1);
                Err(Failed)
            }
        }
    }
}

/// The files of a disk.
#[derive(Drop)]
pub struct DiskFiles<'a, R> {
    rt: &'a R,
    failed_brings: u64,
    failed_takes: u64,
}

impl<'a, R> DiskFiles<'a, R> {
    pub fn new(rt: &'a R) -> DiskFiles<'a, R> {
        DiskFiles {
            rt,
            failed_brings: 0,
            failed_takes: 0,
        }
    }
}

impl<'a, R: Disk> Files for DiskFiles<'a, R> {
    type Src = ReaderSource<R::File>;

    ghost holds = { λ _ _. None };

    ghost mark_of = { λ _ _. 1 };

    ghost failed_brings = { λ f _. f.failed_brings };

    ghost failed_takes = { λ f _. f.failed_takes };

    fn bring(&mut self, name: &str) -> Result<ReaderSource<R::File>, Failed> {
        match fs::open(self.rt, name) {
            Ok(inner) => Ok(ReaderSource {
                inner,
                faults: 0,
                mark: 1,
            }),
            Err(_) => {
                self.failed_brings = self.failed_brings.saturating_add(1);
                Err(Failed)
            }
        }
    }

    fn take_back(&mut self, source: ReaderSource<R::File>) {
        if source.faults > 0 {
            self.failed_takes = self.failed_takes.saturating_add(1);
        }
    }
}
