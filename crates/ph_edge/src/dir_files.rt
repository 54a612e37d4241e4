//! The trusted edge: the files of a file system.
ghost use Rattle.std.specs.Prelude.{◌≡◌, ◌≤◌, ◌+◌, [], true, false, None, Err, length, OnOk, OnErr, IfOk};
ghost use Rattle.std.specs.Io.KnownBytes.{Appends, Consumes, IsAtEnd, Keeps, append_known};
ghost use Rattle.ph_io.specs.Counts.{next_count};
ghost use Rattle.ph_io.specs.Causes.{Rose};
ghost use Rattle.ph_io.specs.Shelf.{Map, Draft, Stays, Begins, Grows, Gains, FetchCounts, Counts};

use crate::interrupted::read_again;
use arrayvec::ArrayString;
use ph_io::{Failed, FetchFault, Files, NoMemory};
use std::alloc::Global;
use std::fs::{File, Metadata, OpenFile};
use std::io::{ErrorKind, Read, Write};
use std::marker::Model;
use std::{fs, io, rt};

const PIECE_BYTES: usize = 4096;

// So many bytes of a file that is begun are gathered before they are written.
const GATHERED_BYTES: usize = 1 << 16;

/// The files of a runtime, by their paths. Each error of the runtime is a fault.
///
/// A file that is begun is written under its name with `.part` added. It is renamed when it is
/// finished, so that a file of its name stays whole until then. Where it is dropped, its `.part` file
/// is taken away again if the runtime lets it; whether it did is not told. So a user should know:
///
/// - What is not there cannot be told from what cannot be opened, and `Absent` is never answered.
/// - To save `x` takes a file `x.part` away, and fails where that is a link or no file.
/// - A link is followed where it is fetched, and no file is begun in its place.
/// - Where a path may have names of at most 255 bytes, one of more than 250 can be fetched and not
///   saved.
/// - A name is a path, and leads wherever the program may read and write, also out of its folder.
/// - A file that is begun when the program ends leaves its `.part` file.
///
/// What is no regular file (a folder, a pipe, a device) is neither fetched nor replaced, so that no call
/// waits for the other end of a pipe. It is looked at before it is opened, and what is fetched once more when
/// it is open. A name that becomes a pipe between the look and the opening may still make a call wait.
///
/// What the files hold is never known. That a file has the bytes that were appended, and that a
/// rename puts it in the place of the former one as a whole, is trusted of std and of the operating
/// system. Nothing is said of a crash.
#[derive(Drop)]
pub struct DirFiles<'r, R: rt::Files, W: Write + Drop> {
    rt: &'r R,
    file: Option<R::File>,
    name: ArrayString<255>,
    gathered: Vec<u8>,
    ahead: W,
    faults: u64,
}

impl<'r, R: rt::Files, W: Write + Drop> Model for DirFiles<'r, R, W> {
    ghost use Rattle.std.specs.Prelude.{is_some};
    ghost use Rattle.ph_edge.specs.Opened.{Opened};

    ghost Value = { Opened };

    ghost view = { λ s. record { is_begun = is_some s.file; faults = s.faults } };
}

impl<'r, R: rt::Files, W: Write + Drop> DirFiles<'r, R, W> {
    /// The files of this runtime, with no fault so far. `ahead` is flushed before a file is finished, so that what was written to it is out by then.
    ///
    /// It takes memory for the bytes that it gathers, once: no call wants any later.
    pub fn new(alloc: Global, rt: &'r R, ahead: W) -> Result<DirFiles<'r, R, W>, NoMemory>
        ensures { IfOk result (λ files. files ≡ record { is_begun = false; faults = 0 }) }
    {
        let gathered = Vec::with_capacity(alloc, GATHERED_BYTES)?;
        Ok(DirFiles {
            rt,
            file: None,
            name: ArrayString::new(),
            gathered,
            ahead,
            faults: 0,
        })
    }

    /// Counts a fault.
    fn fault(&mut self) -> Failed
        ensures is_begun { self.new.is_begun ≡ self.old.is_begun }
        ensures count { self.new.faults ≡ next_count self.old.faults }
        ensures later { self.old.faults ≤ self.new.faults }
        ensures rose { Rose self.old.faults self.new.faults }
    {
        self.faults = self.faults.saturating_add(1);
        Failed
    }

    /// Takes the `.part` file of the draft away, where the runtime lets it.
    fn remove_part(&self) {
        let _removed = fs::remove_file(self.rt, part_of(self.name.as_str()).as_str());
    }

    /// Drops what is begun.
    fn drop_draft(&mut self)
        ensures is_begun { self.new.is_begun ≡ false }
        ensures faults { self.new.faults ≡ self.old.faults }
    {
        if self.file.is_some() {
            self.file = None;
            self.gathered.clear();
            self.remove_part();
        }
    }
}

/// A name with `.part` added.
fn part_of(name: &str) -> ArrayString<260>
    requires { length name.now ≤ 255 }
{
    let mut path = ArrayString::new();
    path.push_str(name);
    path.push_str(".part");
    path
}

/// Whether something was found that is no regular file. Where nothing was found, opening it decides.
fn is_special(found: io::Result<Metadata>) -> bool {
    match found {
        Ok(found) => !found.is_file(),
        Err(_) => false,
    }
}

/// Opens a regular file, and nothing else. A link is followed.
fn open_regular<R: rt::Files>(rt: &R, name: &str) -> io::Result<R::File> {
    if is_special(fs::metadata(rt, name)) {
        return Err(io::Error::from(ErrorKind::InvalidInput));
    }
    let file = fs::open(rt, name)?;
    if is_special(file.metadata()) {
        return Err(io::Error::from(ErrorKind::InvalidInput));
    }
    Ok(file)
}

/// Creates the `.part` file of a name, where what has this name is a regular file or is not there. A regular file with the
/// name of the `.part` file is taken away first, so that nothing that stands there is ever written to.
fn create_part<R: rt::Files>(rt: &R, name: &str) -> io::Result<R::File>
    requires { length name.now ≤ 255 }
{
    let path = part_of(name);
    if is_special(fs::symlink_metadata(rt, name)) {
        return Err(io::Error::from(ErrorKind::InvalidInput));
    }
    if is_regular(fs::symlink_metadata(rt, path.as_str())) {
        fs::remove_file(rt, path.as_str())?;
    }
    File::create_new(rt, path.as_str())
}

/// Whether a regular file was found.
fn is_regular(found: io::Result<Metadata>) -> bool {
    match found {
        Ok(found) => found.is_file(),
        Err(_) => false,
    }
}

/// Writes what was gathered.
fn write_rest<W: Write>(file: &mut W, gathered: &mut Vec<u8>) -> io::Result<()>
    ensures kept { OnOk result (Keeps (append_known (W.contents file.old) gathered.old.items) (W.contents file.new)) }
    ensures none { OnOk result (gathered.new.items ≡ []) }
{
    file.write_all(gathered.as_slice())?;
    gathered.clear();
    Ok(())
}

/// Gathers a piece, and writes what was gathered where it has no room for it.
fn gather<W: Write>(file: &mut W, gathered: &mut Vec<u8>, piece: &[u8]) -> io::Result<()>
    ensures { OnOk result (Appends (append_known (W.contents file.old) gathered.old.items)
        (append_known (W.contents file.new) gathered.new.items) piece.now) }
{
    if gathered.capacity() - gathered.len() < piece.len() {
        write_rest(file, gathered)?;
        if gathered.capacity() - gathered.len() < piece.len() {
            return file.write_all(piece);
        }
    }
    match gathered.extend_from_slice(piece) {
        Ok(()) => Ok(()),
        Err(_) => unreachable!(),
    }
}

/// Whether a file is known to be longer than it may be. A size that is not told, or that grows later, is found out as it is read.
fn is_over<F: OpenFile>(file: &F, most: u64) -> bool {
    match file.metadata() {
        Ok(found) => found.len() > most,
        Err(_) => false,
    }
}

/// Makes `into` the bytes of an open file, which may be `most`.
fn read_file<F: Read>(file: &mut F, most: u64, into: &mut Vec<u8>) -> Result<(), FetchFault>
    ensures within { OnOk result (length into.new.items ≤ most) }
    ensures whole { OnOk result (Consumes (F.remaining file.old) (F.remaining file.new) into.new.items × IsAtEnd (F.remaining file.new)) }
{
    into.clear();
    let mut piece = [0u8; PIECE_BYTES];
    'pieces: loop {
        let Ok(count) = read_again(file, &mut piece) else {
            return Err(FetchFault::Failed);
        };
        if count == 0 {
            return Ok(());
        }
        if most - (into.len() as u64) < count as u64 {
            return Err(FetchFault::Over);
        }
        if into.extend_from_slice(&piece[..count]).is_err() {
            return Err(FetchFault::NoMemory);
        }
    }
}

impl<'r, R: rt::Files, W: Write + Drop> Files for DirFiles<'r, R, W> {
    ghost files = { λ _. None };

    ghost draft = { λ _. None };

    ghost is_begun = { λ s. s.is_begun };

    ghost faults = { λ s. s.faults };

    ghost draft_known = { λ _ known. known };

    fn fetch(&mut self, name: &str, most: u64, into: &mut Vec<u8>) -> Result<(), FetchFault>
        requires { length name.now ≤ 255 }
        ensures within { OnOk result (length into.new.items ≤ most) }
        ensures counts { FetchCounts self.old.faults self.new.faults result }
        ensures once { result ≡ Err FetchFault.Failed → self.new.faults ≡ next_count self.old.faults }
        ensures is_begun { self.new.is_begun ≡ self.old.is_begun }
    {
        let fetched = match open_regular(self.rt, name) {
            Ok(file) if is_over(&file, most) => Err(FetchFault::Over),
            Ok(mut file) => read_file(&mut file, most, into),
            Err(_) => Err(FetchFault::Failed),
        };
        if fetched == Err(FetchFault::Failed) {
            self.fault();
        }
        fetched
    }

    fn begin(&mut self, name: &str) -> Result<(), Failed>
        requires { length name.now ≤ 255 }
        ensures ok { OnOk result (Begins None None name.now) }
        ensures begun { OnOk result (self.new.is_begun ≡ true) }
        ensures err { OnErr result (Stays {X = Draft} None None) }
        ensures none { OnErr result (self.new.is_begun ≡ false) }
        ensures counts { Counts self.old.faults self.new.faults result }
        ensures once { OnErr result (self.new.faults ≡ next_count self.old.faults) }
    {
        self.drop_draft();
        self.name.clear();
        self.name.push_str(name);
        match create_part(self.rt, name) {
            Ok(file) => {
                self.file = Some(file);
                Ok(())
            }
            Err(_) => Err(self.fault()),
        }
    }

    fn append(&mut self, piece: &[u8]) -> Result<(), Failed>
        requires { self.old.is_begun ≡ true }
        ensures ok { OnOk result (Grows None None piece.now) }
        ensures begun { OnOk result (self.new.is_begun ≡ true) }
        ensures err { OnErr result (Stays {X = Draft} None None) }
        ensures none { OnErr result (self.new.is_begun ≡ false) }
        ensures counts { Counts self.old.faults self.new.faults result }
        ensures once { OnErr result (self.new.faults ≡ next_count self.old.faults) }
    {
        if let Some(file) = &mut self.file {
            if gather(file, &mut self.gathered, piece).is_ok() {
                return Ok(());
            }
        }
        self.drop_draft();
        Err(self.fault())
    }

    fn finish(&mut self) -> Result<(), Failed>
        requires { self.old.is_begun ≡ true }
        ensures ok { OnOk result (Gains None None None) }
        ensures err { OnErr result (Stays {X = Map} None None) }
        ensures none { self.new.is_begun ≡ false }
        ensures counts { Counts self.old.faults self.new.faults result }
        ensures once { OnErr result (self.new.faults ≡ next_count self.old.faults) }
    {
        let written = match &mut self.file {
            Some(file) => write_rest(file, &mut self.gathered).is_ok(),
            None => false,
        };
        self.file = None;
        self.gathered.clear();
        let name = self.name.as_str();
        if written
            && self.ahead.flush().is_ok()
            && fs::rename(self.rt, part_of(name).as_str(), name).is_ok()
        {
            return Ok(());
        }
        self.remove_part();
        Err(self.fault())
    }
}
