//! The keeper over a file.
ghost use Rattle.std.specs.Prelude.{◌≡◌, Err, IfOk, None, Some, false, true, IsErr, IsOk, IsSome, IsTrue, OnErr, OnOk};
ghost use Rattle.cube_base.specs.Outside.{next_count};
ghost use Rattle.fact_keeper.specs.Keeper.{CountsKeepFault};
ghost use Rattle.fact_keeper.specs.declared.keeper.KeepError.TheVariants as keep_error;
ghost use Rattle.sqlite_keeper.specs.SqlKeeper.{looks_with, written_over};

use fact_keeper::{Batch, KeepError, Keeper, Stored};
use sqlite_file::{Fault, Reason, Standing, StoreFile, look};
use std::alloc::Global;
use std::marker::Model;

/// A keeper of stores in files. The name of a store is the path of its file, which it tells; it tells no content and no journal. A file is
/// made by the first batch that is committed. A drop closes the file.
#[derive(Drop)]
pub struct SqlKeeper<'rt> {
    rt: &'rt HostRuntime,
    file: Option<StoreFile<'rt>>,
    // Whether nothing was kept at the name when it was loaded, so that no file was opened.
    is_new: bool,
    // It outlives the file, which a load that fails has closed.
    name: Option<String>,
    loads: u64,
    is_open: bool,
    // Whether there was something in the content that was loaded last, and how many batches were written since.
    was_filled: bool,
    written: u64,
    looks: u64,
    faults: u64,
    reason: Option<Reason>,
}

impl<'rt> Model for SqlKeeper<'rt> {
    ghost use Rattle.std.specs.Prelude.{◌≡◌, IfSome, Some, option_map, string_bytes};
    ghost use Rattle.sqlite_keeper.specs.SqlKeeper.{Opened};

    ghost Value = { Opened };

    ghost view = { λ k. record { name = option_map string_bytes k.name; loads = k.loads; is_open = k.is_open; was_filled = k.was_filled; written = k.written; looks = k.looks; faults = k.faults; reason = k.reason } };

    // The file that is open is that of the name.
    ghost invariant = { λ k. IfSome k.file (λ path. option_map string_bytes k.name ≡ Some path) };
}

impl<'rt> SqlKeeper<'rt> {
    /// A keeper that is not open, tells no name, and counts no load, no batch, no look and no fault. It opens no file.
    pub fn new(rt: &'rt HostRuntime) -> Self
        ensures { result ≡ record { name = None; loads = 0; is_open = false; was_filled = false; written = 0; looks = 0; faults = 0; reason = None } }
    {
        SqlKeeper {
            rt,
            file: None,
            is_new: false,
            name: None,
            loads: 0,
            is_open: false,
            was_filled: false,
            written: 0,
            looks: 0,
            faults: 0,
            reason: None,
        }
    }

    /// Why the last call that had a fault had it, if one had.
    pub fn reason(&self) -> Option<Reason>
        ensures { result ≡ self.now.reason }
    {
        self.reason
    }

    /// How many batches were written since the load over a content in which there was something: all, but for the first where there was
    /// nothing. The count stands at its last value.
    pub fn written_over(&self) -> u64
        ensures { result ≡ written_over self.now }
    {
        if self.was_filled {
            self.written
        } else {
            self.written.saturating_sub(1)
        }
    }

    /// Looks once more whether the store is there by its name as the last batch left it, where one was written since the load.
    pub fn look_again(&mut self) -> Result<(), KeepError>
        ensures count { CountsKeepFault self.old.faults self.new.faults result }
        ensures raised { result ≡ Err keep_error.Failed → self.new.faults ≡ next_count self.old.faults }
        ensures told { result ≡ Err keep_error.Failed → IsSome self.new.reason }
        ensures looked { self.new.looks ≡ looks_with self.old }
        ensures unwritten { self.old.written ≡ 0 → IsOk result }
        ensures same { self.new ≡ record self.old { looks = self.new.looks; faults = self.new.faults; reason = self.new.reason } }
    {
        if self.written == 0 {
            return Ok(());
        }
        self.looks = self.looks.saturating_add(1);
        match self.find_left() {
            Ok(()) => Ok(()),
            Err(fault) => self.refuse(fault),
        }
    }

    /// That the file that is open is at its path as it was left.
    fn find_left(&self) -> Result<(), Fault> {
        match &self.file {
            Some(file) => file.look_again(),
            None => Err(Fault::Outside(Reason::Closed)),
        }
    }

    /// Opens the file at a path in place of the one that is open, and gives the content. Where nothing was kept there yet, it makes no
    /// file: the first batch does.
    fn open(&mut self, alloc: Global, path: &str) -> Result<Stored, Fault>
        ensures opened { OnOk result (self.new ≡ record self.old { name = Some path.now; is_open = true; was_filled = self.new.was_filled }) }
        ensures same { OnErr result (self.new ≡ self.old) }
    {
        // It may be the same file, which a second open finds locked.
        self.file = None;
        self.is_new = false;
        let name = String::from_str(alloc, path)?;
        let (file, content) = match look(self.rt, path)? {
            Standing::Nothing => (None, Stored::empty(alloc)),
            Standing::Database => opened_file(self.rt, alloc, path)?,
        };
        self.is_new = file.is_none();
        self.was_filled = !content.is_empty();
        self.file = file;
        self.name = Some(name);
        self.is_open = true;
        Ok(content)
    }

    /// Makes the file of a store in which there was nothing when it was loaded.
    fn make(&mut self) -> Result<(), Fault>
        ensures { self.new ≡ self.old }
    {
        let Some(name) = &self.name else {
            return Err(Fault::Outside(Reason::Closed));
        };
        let file = made_file(self.rt, name.as_str())?;
        self.file = Some(file);
        self.is_new = false;
        Ok(())
    }

    /// Counts a fault of the outside, and running out of memory as none. The count stands at its last value.
    fn refuse<T>(&mut self, fault: Fault) -> Result<T, KeepError>
        ensures err { IsErr result }
        ensures count { CountsKeepFault self.old.faults self.new.faults result }
        ensures raised { result ≡ Err keep_error.Failed → self.new.faults ≡ next_count self.old.faults }
        ensures told { result ≡ Err keep_error.Failed → IsSome self.new.reason }
        ensures same { self.new ≡ record self.old { faults = self.new.faults; reason = self.new.reason } }
    {
        match fault {
            Fault::Memory => Err(KeepError::Memory),
            Fault::Outside(reason) => {
                self.faults = self.faults.saturating_add(1);
                self.reason = Some(reason);
                Err(KeepError::Failed)
            }
        }
    }

    /// Writes a batch into the file that is open.
    fn write(&mut self, batch: &Batch) -> Result<(), Fault>
        ensures { self.new ≡ self.old }
    {
        if self.is_new {
            self.make()?;
        }
        match &mut self.file {
            Some(file) => file.write(batch),
            // A load that failed has closed the file.
            None => Err(Fault::Outside(Reason::Closed)),
        }
    }
}

impl Keeper for SqlKeeper<'_> {
    ghost tells = { λ k. record { content = None; journal = None; name = k.name; loads = k.loads; is_open = k.is_open; faults = k.faults } };

    fn keeps(&self) -> bool
        ensures all { result ≡ true }
    {
        true
    }

    /// Opens the file whose path is the name; where nothing is kept there yet, the first batch makes it. The file that was open is closed
    /// first, and an error leaves none open: each commit is then a fault, until a load is answered.
    fn load(&mut self, alloc: Global, name: &str) -> Result<Stored, KeepError>
        // What every keeper says.
        ensures named { OnOk result (self.new.name ≡ Some name.now) }
        ensures same_name { OnErr result (self.new.name ≡ self.old.name) }
        ensures loaded { self.new.loads ≡ next_count self.old.loads }
        ensures opened { OnOk result (IsTrue self.new.is_open) }
        ensures stays_open { IsTrue self.old.is_open → IsTrue self.new.is_open }
        ensures count { CountsKeepFault self.old.faults self.new.faults result }

        // What this one adds.
        ensures same_open { OnErr result (self.new.is_open ≡ self.old.is_open) }
        ensures unwritten { self.new.written ≡ 0 }
        ensures same_looks { self.new.looks ≡ self.old.looks }
        ensures raised { result ≡ Err keep_error.Failed → self.new.faults ≡ next_count self.old.faults }
        ensures told { result ≡ Err keep_error.Failed → IsSome self.new.reason }
    {
        self.loads = self.loads.saturating_add(1);
        self.written = 0;
        match self.open(alloc, name) {
            Ok(content) => Ok(content),
            Err(fault) => self.refuse(fault),
        }
    }

    /// Writes the batch as one transaction.
    fn commit(&mut self, batch: &Batch) -> Result<(), KeepError>
        requires { IsTrue self.old.is_open }

        // What every keeper says.
        ensures stays_open { IsTrue self.new.is_open }
        ensures same_name { self.new.name ≡ self.old.name }
        ensures same_loads { self.new.loads ≡ self.old.loads }
        ensures count { CountsKeepFault self.old.faults self.new.faults result }

        // What this one adds.
        ensures written { OnOk result (self.new.written ≡ next_count self.old.written) }
        ensures same_written { OnErr result (self.new.written ≡ self.old.written) }
        ensures same_filled { self.new.was_filled ≡ self.old.was_filled }
        ensures same_looks { self.new.looks ≡ self.old.looks }
        ensures raised { result ≡ Err keep_error.Failed → self.new.faults ≡ next_count self.old.faults }
        ensures told { result ≡ Err keep_error.Failed → IsSome self.new.reason }
    {
        match self.write(batch) {
            Ok(()) => {
                self.written = self.written.saturating_add(1);
                Ok(())
            }
            Err(fault) => self.refuse(fault),
        }
    }
}

/// Opens the file at a path, and reads its content.
fn opened_file<'rt>(
    rt: &'rt HostRuntime,
    alloc: Global,
    path: &str,
) -> Result<(Option<StoreFile<'rt>>, Stored), Fault>
    ensures { IfOk result (λ opened. opened.0 ≡ Some path.now) }
{
    let mut file = StoreFile::open(rt, path)?;
    let content = file.read(alloc)?;
    Ok((Some(file), content))
}

/// Makes the file at a path, where there must still be nothing.
fn made_file<'rt>(rt: &'rt HostRuntime, path: &str) -> Result<StoreFile<'rt>, Fault>
    ensures { IfOk result (λ file. file ≡ path.now) }
{
    if look(rt, path)? != Standing::Nothing {
        return Err(Fault::Outside(Reason::Exchanged));
    }
    let mut file = StoreFile::open(rt, path)?;
    // Another may have kept something before this open locked the file.
    if file.read(rt.alloc())?.is_empty() {
        Ok(file)
    } else {
        Err(Fault::Outside(Reason::Exchanged))
    }
}
