ghost use Rattle.std.specs.Prelude.{◌≡◌, ℕ, ◌≤◌, ◌<◌, ◌↔◌, [], Some, None, IsTrue, length, take, drop, if◌then◌else◌, position, bytes_eq, unwrap_or};
ghost use Rattle.text_ports.specs.Memory.{bytes_of, bytes_at};

/// A file that is held in memory.
#[derive(Debug, Drop)]
pub struct MemFile {
    pub name: Vec<u8>,
    pub bytes: Vec<u8>,
}

/// Files that are held in memory, one of which may be open. A read gives at most `cut` bytes.
pub(crate) struct Held {
    pub(crate) files: Vec<MemFile>,
    cut: usize,
    pub(crate) place: Option<usize>,
    pub(crate) at: usize,
    ghost cut_takes: { 0 < cut },
    ghost at_within: { at ≤ length (bytes_at files.items place) },
}

// Written out, so that it is let go of by a call, and not part by part wherever one is.
impl Drop for Held {
    fn drop(self) {
        let Held {
            files: _,
            cut: _,
            place: _,
            at: _,
        } = self;
    }
}

impl Held {
    ghost use Rattle.text_ports.specs.Held.{left_of};

    /// No file is open.
    pub(crate) fn new(files: Vec<MemFile>, cut: usize) -> Held
        requires { 0 < cut }
        ensures files { result.files ≡ files }
        ensures left { left_of result ≡ [] }
    {
        Held {
            files,
            cut,
            place: None,
            at: 0,
        }
    }

    /// Closes what is open.
    pub(crate) fn close(&mut self)
        ensures files { self.new.files ≡ self.old.files }
        ensures left { left_of self.new ≡ [] }
    {
        self.at = 0;
        self.place = None;
    }

    /// Opens the first file of this name, if there is one. What was open before is closed.
    pub(crate) fn open(&mut self, name: &str) -> bool
        ensures files { self.new.files ≡ self.old.files }
        ensures found { bytes_of self.old.files.items name.now
            ≡ (if result then Some (left_of self.new) else None) }
        ensures left { left_of self.new ≡ unwrap_or (bytes_of self.old.files.items name.now) [] }
    {
        self.at = 0;
        self.place = place_of(self.files.as_slice(), name);
        self.place.is_some()
    }

    /// Reads the next bytes into the front of the buffer, and answers how many they are.
    pub(crate) fn read(&mut self, buffer: &mut [u8]) -> usize
        requires { 0 < length buffer.old }
        ensures files { self.new.files ≡ self.old.files }
        ensures fits { result ≤ length buffer.new }
        ensures within { result ≤ length (left_of self.old) }
        ensures next { take result buffer.new ≡ take result (left_of self.old) }
        ensures rest { left_of self.new ≡ drop result (left_of self.old) }
        ensures end { (result ≡ 0) ↔ (left_of self.old ≡ []) }
    {
        let bytes = file_at(self.files.as_slice(), self.place);
        let count = copy_some(&bytes[self.at..], self.cut, buffer);
        self.at += count;
        count
    }
}

/// The place of the first file of this name.
fn place_of(files: &[MemFile], name: &str) -> Option<usize>
    ensures { result ≡ position (λ file. bytes_eq file.name.items name.now) files.now }
{
    files
        .iter()
        .position(|file| file.name.as_slice() == name.as_bytes())
}

/// The bytes of the file at this place, and no byte where no file is open.
fn file_at(files: &[MemFile], place: Option<usize>) -> &[u8]
    ensures { result.now ≡ bytes_at files.now place }
{
    let Some(place) = place else {
        return &[];
    };
    match files.get(place) {
        Some(file) => file.bytes.as_slice(),
        None => &[],
    }
}

/// Copies from the front of `from` to the front of `to`, at most `cut` bytes, and answers how many they are.
fn copy_some(from: &[u8], cut: usize, to: &mut [u8]) -> usize
    requires cut_takes { 0 < cut }
    requires room { 0 < length to.old }
    ensures within { result ≤ length from.now }
    ensures fits { result ≤ length to.new }
    ensures copied { take result to.new ≡ take result from.now }
    ensures end { (result ≡ 0) ↔ (from.now ≡ []) }
{
    let count = from.len().min(cut).min(to.len());
    to[..count].copy_from_slice(&from[..count]);
    count
}
