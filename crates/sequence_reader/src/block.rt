//! The bytes of a file, block by block.

ghost use Rattle.std.specs.Prelude.{◌≡◌, ◌≢◌, ℕ, ◌+◌, ◌≤◌, ◌<◌, ◌++◌, true, false, List, [], Option, Some, Ok, Err, length, take, drop, IsTrue, IfOk, OnOk, IfSome};
ghost use Rattle.mine_model.specs.Limits.{most_file_bytes};
ghost use Rattle.text_ports.specs.Faults.{Rose};
ghost use Rattle.text_ports.specs.Scanning.{lines_behind};
ghost use Rattle.sequence_reader.specs.Blocks.{bytes_of, rest_of, text_of, EndsWithFeed, IsBlock, IsNext, WereAdded, IsAt};

use mine_model::NoMemory;
use std::alloc::Global;
use text_ports::{Failed, Files, ReadFault, without_mark};

/// The most bytes of a file.
const MOST_FILE_BYTES: usize = 67_108_864;

/// The most bytes that are read at once: a file of the kernel's own may refuse to give 4 MiB.
const MOST_READ: usize = 1_048_576;

/// The bytes of a file that were read last: so many first ones of the buffer.
#[derive(Debug, Drop)]
pub(crate) struct Block {
    buffer: Vec<u8>,
    filled: usize,
    /// So many of them are whole lines; at the file's end all.
    lines: usize,
    /// How many bytes of the file were read in all.
    total: usize,
    is_first: bool,
    /// Whether the file was read to its end.
    is_last: bool,
}

impl Block {
    /// A buffer of this size, before anything is read.
    pub(crate) fn new(alloc: Global, size: usize) -> Result<Block, NoMemory>
        ensures size { IfOk result (λ block. length block.buffer.items ≡ size) }
        ensures filled { IfOk result (λ block. block.filled ≡ 0) }
        ensures total { IfOk result (λ block. block.total ≡ 0) }
        ensures first { IfOk result (λ block. block.is_first ≡ true) }
        ensures last { IfOk result (λ block. block.is_last ≡ false) }
    {
        let mut buffer = Vec::new(alloc);
        buffer.resize(size, 0u8)?;
        Ok(Block {
            buffer,
            filled: 0,
            lines: 0,
            total: 0,
            is_first: true,
            is_last: false,
        })
    }

    /// Whether the file was read to its end.
    pub(crate) fn is_last(&self) -> bool
        ensures { result ≡ self.now.is_last }
    {
        self.is_last
    }

    /// The text of the whole lines.
    pub(crate) fn text(&self) -> &[u8]
        requires { IsBlock self.now }
        ensures text { result.now ≡ text_of self.now }
        ensures few { length result.now ≤ most_file_bytes }
    {
        let lines = &self.buffer[..self.lines];
        if self.is_first {
            without_mark(lines)
        } else {
            lines
        }
    }

    /// Reads once into what is free of the buffer. The answer is how many bytes, 0 at the file's end.
    fn read_some<F: Files>(&mut self, files: &mut F) -> Result<usize, ReadFault>
        requires free { self.old.filled < length self.old.buffer.items }
        requires few { self.old.total ≤ most_file_bytes }
        ensures added { OnOk result (WereAdded (F.left files.old) (F.left files.new) self.old self.new) }
        ensures filled { IfOk result (λ count. self.new.filled ≡ self.old.filled + count) }
        ensures total { IfOk result (λ count. self.new.total ≡ self.old.total + count) }
        ensures within { self.new.filled ≤ length self.new.buffer.items }
        ensures end { result ≡ Ok 0 → IfSome (F.left files.old) (λ rest. F.left files.new ≡ Some []) }
        ensures few { OnOk result (self.new.total ≤ most_file_bytes) }
        ensures size { length self.new.buffer.items ≡ length self.old.buffer.items }
        ensures first { self.new.is_first ≡ self.old.is_first }
        ensures last { self.new.is_last ≡ self.old.is_last }
        ensures too_large { result ≡ Err ReadFault.TooLarge
            → IfSome (F.left files.old) (λ rest. most_file_bytes < self.old.total + length rest) }
        ensures failed { result ≡ Err ReadFault.Failed → Rose (F.faults files.old) (F.faults files.new) }
        ensures same_names { F.may files.new ≡ F.may files.old }
        ensures same_files { F.holds files.new ≡ F.holds files.old }
        ensures never_falls { F.faults files.old ≤ F.faults files.new }
    {
        let free = (self.buffer.len() - self.filled).min(MOST_READ);
        let most = (MOST_FILE_BYTES + 1 - self.total).min(free);
        let count = files.read(&mut self.buffer[self.filled..self.filled + most])?;
        self.filled += count;
        self.total += count;
        if self.total > MOST_FILE_BYTES {
            return Err(ReadFault::TooLarge);
        }
        Ok(count)
    }

    /// Takes more memory where the buffer is full. The answer is whether it has a whole line in place of
    /// that.
    fn make_room(&mut self) -> Result<bool, ReadFault>
        requires some { 0 < length self.old.buffer.items }
        requires within { self.old.filled ≤ length self.old.buffer.items }
        requires few { self.old.filled ≤ most_file_bytes }
        ensures bytes { bytes_of self.new ≡ bytes_of self.old }
        ensures filled { self.new.filled ≡ self.old.filled }
        ensures within { self.new.filled ≤ length self.new.buffer.items }
        ensures free { result ≡ Ok false → self.new.filled < length self.new.buffer.items }
        ensures lines { result ≡ Ok true → self.new.lines ≤ self.new.filled }
        ensures feed { result ≡ Ok true → EndsWithFeed (take self.new.lines self.new.buffer.items) }
        ensures total { self.new.total ≡ self.old.total }
        ensures first { self.new.is_first ≡ self.old.is_first }
        ensures last { self.new.is_last ≡ self.old.is_last }
        ensures why { result ≢ Err ReadFault.TooLarge × result ≢ Err ReadFault.Failed }
    {
        let len = self.buffer.len();
        if self.filled < len {
            return Ok(false);
        }
        self.lines = lines_end(self.buffer.as_slice());
        if self.lines > 0 {
            return Ok(true);
        }
        let more = len.min(MOST_FILE_BYTES + 1 - len);
        self.buffer.resize(len + more, 0)?;
        Ok(false)
    }

    /// Reads until the buffer is full and has a whole line, or the file ends.
    fn fill<F: Files>(&mut self, files: &mut F) -> Result<(), ReadFault>
        requires some { 0 < length self.old.buffer.items }
        requires within { self.old.filled ≤ length self.old.buffer.items }
        requires read { self.old.filled ≤ self.old.total }
        requires few { self.old.total ≤ most_file_bytes }
        requires more { self.old.is_last ≡ false }
        ensures block { OnOk result (IsBlock self.new) }
        ensures added { OnOk result (WereAdded (F.left files.old) (F.left files.new) self.old self.new) }
        ensures end { OnOk result (IsTrue self.new.is_last
            → IfSome (F.left files.old) (λ rest. F.left files.new ≡ Some [])) }
        ensures place { OnOk result (self.new.total + self.old.filled ≡ self.old.total + self.new.filled) }
        ensures first { self.new.is_first ≡ self.old.is_first }
        ensures too_large { result ≡ Err ReadFault.TooLarge
            → IfSome (F.left files.old) (λ rest. most_file_bytes < self.old.total + length rest) }
        ensures failed { result ≡ Err ReadFault.Failed → Rose (F.faults files.old) (F.faults files.new) }
        ensures same_names { F.may files.new ≡ F.may files.old }
        ensures same_files { F.holds files.new ≡ F.holds files.old }
        ensures never_falls { F.faults files.old ≤ F.faults files.new }
    {
        while !self.make_room()? {
            if self.read_some(files)? == 0 {
                self.lines = self.filled;
                self.is_last = true;
                return Ok(());
            }
        }
        Ok(())
    }

    /// Reads the first lines of a file that was opened.
    pub(crate) fn begin<F: Files>(&mut self, files: &mut F) -> Result<(), ReadFault>
        requires some { 0 < length self.old.buffer.items }
        requires none { self.old.filled ≡ 0 }
        requires unread { self.old.total ≡ 0 }
        requires first { self.old.is_first ≡ true }
        requires more { self.old.is_last ≡ false }
        ensures block { OnOk result (IsBlock self.new) }
        ensures at { OnOk result (IsAt (F.left files.old) (F.left files.new) [] self.new) }
        ensures too_large { result ≡ Err ReadFault.TooLarge
            → IfSome (F.left files.old) (λ whole. most_file_bytes < length whole) }
        ensures failed { result ≡ Err ReadFault.Failed → Rose (F.faults files.old) (F.faults files.new) }
        ensures same_names { F.may files.new ≡ F.may files.old }
        ensures same_files { F.holds files.new ≡ F.holds files.old }
        ensures never_falls { F.faults files.old ≤ F.faults files.new }
    {
        self.fill(files)?;
        Ok(())
    }

    /// Takes what stands behind the whole lines of another block.
    fn take_rest(&mut self, before: &Block) -> Result<(), NoMemory>
        requires before { IsBlock before.now }
        requires some { 0 < length self.old.buffer.items }
        ensures some { 0 < length self.new.buffer.items }
        ensures bytes { OnOk result (bytes_of self.new ≡ rest_of before.now) }
        ensures filled { OnOk result (self.new.filled ≡ length (rest_of before.now)) }
        ensures within { OnOk result (self.new.filled ≤ length self.new.buffer.items) }
        ensures lines { OnOk result (self.new.lines ≡ 0) }
        ensures total { OnOk result (self.new.total ≡ before.now.total) }
        ensures first { OnOk result (self.new.is_first ≡ false) }
        ensures last { OnOk result (self.new.is_last ≡ before.now.is_last) }
    {
        let rest = &before.buffer[before.lines..before.filled];
        if self.buffer.len() < rest.len() {
            self.buffer.resize(rest.len(), 0)?;
        }
        put_front(self.buffer.as_mut_slice(), rest);
        self.filled = rest.len();
        self.lines = 0;
        self.total = before.total;
        self.is_first = false;
        self.is_last = before.is_last;
        Ok(())
    }

    /// Reads the lines behind those of another block. Behind the last block there are none.
    pub(crate) fn follow<F: Files>(
        &mut self,
        before: &Block,
        files: &mut F,
    ) -> Result<(), ReadFault>
        requires before { IsBlock before.now }
        requires some { 0 < length self.old.buffer.items }
        ensures block { OnOk result (IsNext before.now self.new) }
        ensures at { OnOk result ((told : Option (List ℕ)) (lines : List (List ℕ))
            → IsAt told (F.left files.old) lines before.now
            → IsAt told (F.left files.new) (lines ++ lines_behind (text_of before.now)) self.new) }
        ensures too_large { result ≡ Err ReadFault.TooLarge → (told : Option (List ℕ)) (lines : List (List ℕ))
            → IsAt told (F.left files.old) lines before.now
            → IfSome told (λ whole. most_file_bytes < length whole) }
        ensures failed { result ≡ Err ReadFault.Failed → Rose (F.faults files.old) (F.faults files.new) }
        ensures same_names { F.may files.new ≡ F.may files.old }
        ensures same_files { F.holds files.new ≡ F.holds files.old }
        ensures never_falls { F.faults files.old ≤ F.faults files.new }
    {
        match self.take_rest(before) {
            Ok(()) => {}
            Err(NoMemory) => return Err(ReadFault::NoMemory),
        }
        if self.is_last {
            return Ok(());
        }
        self.fill(files)?;
        Ok(())
    }

    /// Reads to the end of the file, and keeps no byte.
    pub(crate) fn skip_to_end<F: Files>(&mut self, files: &mut F) -> Result<(), ReadFault>
        requires { IsBlock self.old }
        ensures few { OnOk result ((told : Option (List ℕ)) (lines : List (List ℕ))
            → IsAt told (F.left files.old) lines self.old
            → IfSome told (λ whole. length whole ≤ most_file_bytes)) }
        ensures too_large { result ≡ Err ReadFault.TooLarge → (told : Option (List ℕ)) (lines : List (List ℕ))
            → IsAt told (F.left files.old) lines self.old
            → IfSome told (λ whole. most_file_bytes < length whole) }
        ensures failed { result ≡ Err ReadFault.Failed → Rose (F.faults files.old) (F.faults files.new) }
        ensures same_names { F.may files.new ≡ F.may files.old }
        ensures same_files { F.holds files.new ≡ F.holds files.old }
        ensures never_falls { F.faults files.old ≤ F.faults files.new }
    {
        if self.is_last {
            return Ok(());
        }
        self.count_to_end(files)
    }

    /// Reads and counts bytes to the end of the file.
    fn count_to_end<F: Files>(&mut self, files: &mut F) -> Result<(), ReadFault>
        requires some { 0 < length self.old.buffer.items }
        requires few { self.old.total ≤ most_file_bytes }
        ensures few { OnOk result (IfSome (F.left files.old)
            (λ rest. self.old.total + length rest ≤ most_file_bytes)) }
        ensures too_large { result ≡ Err ReadFault.TooLarge
            → IfSome (F.left files.old) (λ rest. most_file_bytes < self.old.total + length rest) }
        ensures failed { result ≡ Err ReadFault.Failed → Rose (F.faults files.old) (F.faults files.new) }
        ensures same_names { F.may files.new ≡ F.may files.old }
        ensures same_files { F.holds files.new ≡ F.holds files.old }
        ensures never_falls { F.faults files.old ≤ F.faults files.new }
    {
        self.filled = 0;
        while self.read_some(files)? > 0 {
            self.filled = 0;
        }
        Ok(())
    }
}

/// Writes bytes to the front of a buffer.
fn put_front(buffer: &mut [u8], bytes: &[u8])
    requires { length bytes.now ≤ length buffer.old }
    ensures front { take (length bytes.now) buffer.new ≡ bytes.now }
    ensures len { length buffer.new ≡ length buffer.old }
{
    buffer[..bytes.len()].copy_from_slice(bytes);
}

/// Where the last whole line of the bytes ends. 0 where there is none.
fn lines_end(bytes: &[u8]) -> usize
    ensures within { result ≤ length bytes.now }
    ensures feed { 0 < result → EndsWithFeed (take result bytes.now) }
{
    let mut end = bytes.len();
    while end > 0 {
        if bytes[end - 1] == b'\n' {
            return end;
        }
        end -= 1;
    }
    0
}
