//! What is said to people at a terminal: how many bytes went through the program's files and its output, once a second, and what is to be typed.

use std::alloc::{Alloc, Allocator, Global};
use std::cell::Cell;
use std::fs::{Metadata, OpenFile, OpenOptions};
use std::io::{Eprint, Read, Result as IoResult, Seek, SeekFrom, Write};
use std::rt::{Clock, Files};
use std::sync::Wait;
use std::thread::Threads;
use std::time::Instant;

/// For how many seconds nothing is said.
const PAUSE: u64 = 1;

/// What is to be typed where the program has no words.
const WANTED: &str =
    "ctftrace: waiting for whole numbers from 0 to 255, one a line, up to the end of the input; `ctftrace help` says what else it does";

/// What can say how far a command is, and what it waits for.
pub trait Progress {
    /// From now on it says how far the command is, where somebody waits.
    fn say_progress(&self);

    /// Says which input is wanted, where somebody types it.
    fn say_wanted(&self);
}

/// The bytes that were read and written so far.
#[derive(Drop)]
pub struct Tally {
    /// Whether standard error is a terminal.
    is_watched: bool,
    /// Whether standard input is a terminal.
    is_typed: bool,
    /// When something was last said. None says nothing.
    last: Cell<Option<Instant>>,
    read: Cell<u64>,
    written: Cell<u64>,
}

impl Tally {
    pub fn new(is_watched: bool, is_typed: bool) -> Tally {
        Tally {
            is_watched,
            is_typed,
            last: Cell::new(None),
            read: Cell::new(0),
            written: Cell::new(0),
        }
    }
}

/// The files of a runtime, whose bytes are counted.
#[derive(Clone, Copy)]
pub struct CountedFiles<'a, R> {
    rt: &'a R,
    tally: &'a Tally,
}

/// A file, or an output, whose bytes are counted.
#[derive(Drop)]
pub struct Counted<'a, R, F> {
    file: F,
    files: CountedFiles<'a, R>,
}

impl<'a, R> CountedFiles<'a, R> {
    pub fn new(rt: &'a R, tally: &'a Tally) -> CountedFiles<'a, R> {
        CountedFiles { rt, tally }
    }

    /// The same file or output, with its bytes counted.
    pub fn counted<F>(&self, file: F) -> Counted<'a, R, F> {
        Counted {
            file,
            files: CountedFiles {
                rt: self.rt,
                tally: self.tally,
            },
        }
    }
}

impl<R: Clock + Eprint> Progress for CountedFiles<'_, R> {
    fn say_progress(&self) {
        if self.tally.is_watched {
            self.tally.last.set(Instant::now(self.rt).ok());
        }
    }

    fn say_wanted(&self) {
        if self.tally.is_typed {
            let _ = eprintln!(self.rt; "{WANTED}");
        }
    }
}

impl<R: Clock + Eprint> CountedFiles<'_, R> {
    fn count_read(&self, bytes: usize) {
        let counter = &self.tally.read;
        counter.set(counter.get().saturating_add(bytes as u64));
        self.say();
    }

    fn count_written(&self, bytes: usize) {
        let counter = &self.tally.written;
        counter.set(counter.get().saturating_add(bytes as u64));
        self.say();
    }

    /// Says how many bytes there were so far, where the last time is long enough ago.
    fn say(&self) {
        let Some(last) = self.tally.last.get() else {
            return;
        };
        let Ok(now) = Instant::now(self.rt) else {
            return;
        };
        if now.duration_since(last).as_secs() < PAUSE {
            return;
        }
        self.tally.last.set(Some(now));
        let read = self.tally.read.get();
        let written = self.tally.written.get();
        let _ = eprintln!(self.rt; "ctftrace: {read} bytes read, {written} written");
    }
}

impl<R: Clock + Eprint, F: Read> Read for Counted<'_, R, F> {
    ghost remaining = { λ c. F.remaining c.file };

    fn read(&mut self, piece: &mut [u8]) -> IoResult<usize> {
        let count = self.file.read(piece)?;
        self.files.count_read(count);
        Ok(count)
    }
}

impl<R: Clock + Eprint, F: Write> Write for Counted<'_, R, F> {
    ghost contents = { λ c. F.contents c.file };

    fn write(&mut self, bytes: &[u8]) -> IoResult<usize> {
        let count = self.file.write(bytes)?;
        self.files.count_written(count);
        Ok(count)
    }

    fn flush(&mut self) -> IoResult<()> {
        self.file.flush()
    }
}

impl<R, F: Seek> Seek for Counted<'_, R, F> {
    ghost stream_position = { λ c. F.stream_position c.file };

    ghost stream_bytes = { λ c. F.stream_bytes c.file };

    fn seek(&mut self, to: SeekFrom) -> IoResult<u64> {
        self.file.seek(to)
    }
}

impl<R, F: OpenFile> OpenFile for Counted<'_, R, F> {
    fn metadata(&self) -> IoResult<Metadata> {
        self.file.metadata()
    }

    fn set_len(&self, size: u64) -> IoResult<()> {
        self.file.set_len(size)
    }

    fn sync_all(&self) -> IoResult<()> {
        self.file.sync_all()
    }

    fn sync_data(&self) -> IoResult<()> {
        self.file.sync_data()
    }
}

impl<R: Threads> Threads for CountedFiles<'_, R> {}

impl<R: Wait> Wait for CountedFiles<'_, R> {}

impl<R: AllocGlobal> Alloc for CountedFiles<'_, R> {
    type A = Global;

    fn alloc(&self) -> Global {
        self.rt.alloc()
    }
}

impl<'a, R: Files + Clock + Eprint> Files for CountedFiles<'a, R> {
    type File = Counted<'a, R, R::File>;

    type Dir = R::Dir;

    fn open_file(&self, how: &OpenOptions, path: &str) -> IoResult<Counted<'a, R, R::File>> {
        Ok(self.counted(self.rt.open_file(how, path)?))
    }

    fn open_dir(&self, path: &str) -> IoResult<R::Dir> {
        self.rt.open_dir(path)
    }

    fn metadata(&self, path: &str) -> IoResult<Metadata> {
        self.rt.metadata(path)
    }

    fn symlink_metadata(&self, path: &str) -> IoResult<Metadata> {
        self.rt.symlink_metadata(path)
    }

    fn copy(&self, from: &str, to: &str) -> IoResult<u64> {
        self.rt.copy(from, to)
    }

    fn rename(&self, from: &str, to: &str) -> IoResult<()> {
        self.rt.rename(from, to)
    }

    fn remove_file(&self, path: &str) -> IoResult<()> {
        self.rt.remove_file(path)
    }

    fn create_dir(&self, path: &str) -> IoResult<()> {
        self.rt.create_dir(path)
    }

    fn remove_dir(&self, path: &str) -> IoResult<()> {
        self.rt.remove_dir(path)
    }

    fn remove_dir_all<B: Allocator>(&self, alloc: B, path: &str) -> IoResult<()> {
        self.rt.remove_dir_all(alloc, path)
    }
}
