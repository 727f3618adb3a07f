//! What lives leave for the next ones to use.
use crate::cluster::BankVolumes;
use slru_bank::BankRooms;
use std::alloc::Global;

/// What a life leaves for the next ones to use, so that they ask for less memory: buffers of banks, and vectors for
/// their volumes. No contract tells what it has.
#[derive(Drop)]
pub struct LifeRooms<P> {
    alloc: Global,
    pub banks: BankRooms,
    vectors: Option<BankVolumes<P>>,
}

impl<P: Drop> LifeRooms<P> {
    /// Nothing yet.
    pub fn new(alloc: Global) -> LifeRooms<P> {
        LifeRooms {
            alloc,
            banks: BankRooms::new(alloc),
            vectors: None,
        }
    }

    /// Vectors for volumes: those that were kept, or else new ones, without room.
    pub fn take_vectors(&mut self) -> BankVolumes<P> {
        if let Some(vectors) = self.vectors.take() {
            return vectors;
        }
        BankVolumes {
            xact: Vec::new(self.alloc),
            subtrans: Vec::new(self.alloc),
            offsets: Vec::new(self.alloc),
            members: Vec::new(self.alloc),
        }
    }

    // Keeps vectors whose volumes are in banks now.
    pub(crate) fn keep_vectors(&mut self, vectors: BankVolumes<P>) {
        self.vectors = Some(vectors);
    }
}
