//! Which files a run reads, so that its output is none of them.

use corr_site::NoMemory;
use std::alloc::Global;
use std::fs::Metadata;
use std::os::unix::fs::MetadataExt;
use std::sync::atomic::{AtomicU64, Ordering};

/// How many sources a run has room for.
pub(crate) const SOURCES: usize = 64;

/// The file that one source holds open, by its device and inode: both are 0 while it holds none.
#[derive(Drop)]
pub struct Held {
    device: AtomicU64,
    inode: AtomicU64,
}

/// The files that the sources of a run and its settings are read from.
#[derive(Drop)]
pub struct HeldFiles {
    inputs: Vec<Held>,
    settings: Held,
}

impl HeldFiles {
    /// None is held. `NoMemory` comes only for want of memory.
    pub fn new(alloc: Global) -> Result<HeldFiles, NoMemory> {
        let mut inputs = Vec::new(alloc);
        for _ in 0..SOURCES {
            inputs.push(Held::new())?;
        }
        let settings = Held::new();
        Ok(HeldFiles { inputs, settings })
    }

    /// That of the settings.
    pub fn settings(&self) -> &Held {
        &self.settings
    }

    // That of the source with this number.
    pub(crate) fn input(&self, number: usize) -> &Held {
        self.inputs.get(number).unwrap_or(&self.settings)
    }

    /// Whether this file is held, by whatever name.
    pub fn contains(&self, file: &Metadata) -> bool {
        self.settings.is(file) || self.inputs.iter().any(|one| one.is(file))
    }
}

impl Held {
    // Holds no file.
    fn new() -> Held {
        Held {
            device: AtomicU64::new(0),
            inode: AtomicU64::new(0),
        }
    }

    // Says that this file is held, whatever its name.
    pub(crate) fn set(&self, file: &Metadata) {
        self.device.store(file.dev(), Ordering::SeqCst);
        self.inode.store(file.ino(), Ordering::SeqCst);
    }

    // Whether it is this file.
    fn is(&self, file: &Metadata) -> bool {
        self.device.load(Ordering::SeqCst) == file.dev()
            && self.inode.load(Ordering::SeqCst) == file.ino()
    }
}
