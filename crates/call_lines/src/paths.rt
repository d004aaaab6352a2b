ghost use Rattle.std.specs.Prelude.{◌≡◌, ◌<◌, None, [], ◌∷◌, ◌++◌, length, IfOk};
ghost use Rattle.call_lines.specs.Places.{place_in};

use std::alloc::{AllocError as OutOfMemory, Global};
use std::collections::BTreeMap;
use std::marker::Model;
use xattr_store::Bytes;

/// The paths of a script's files, in order. Contracts see the list.
#[derive(Drop)]
pub struct Paths {
    paths: Vec<Bytes>,
    places: BTreeMap<Vec<u8>, u32>,
}

impl Model for Paths {
    ghost use Rattle.std.specs.Prelude.{ℕ, List};

    ghost Value = { List (List ℕ) };

    ghost use Rattle.call_lines.specs.Places.{Finds};

    ghost view = { λ p. p.paths.items };

    ghost invariant = { λ p. Finds p.places p.paths.items };
}

impl Paths {
    /// The empty list of paths.
    pub fn new(alloc: Global) -> Paths
        ensures { result ≡ [] }
    {
        Paths {
            paths: Vec::new(alloc),
            places: BTreeMap::new(alloc),
        }
    }

    /// The number of paths.
    pub fn len(&self) -> usize
        ensures { result ≡ length self.now }
    {
        self.paths.len()
    }

    /// The index of the path, counted from 0.
    pub fn place(&self, path: &[u8]) -> Option<u32>
        ensures { result ≡ place_in self.now path.now }
    {
        self.places.get(path).copied()
    }

    /// The paths with one more at the end, which isn't among them.
    pub fn with(self, alloc: Global, path: &[u8]) -> Result<Paths, OutOfMemory>
        requires few { length self < 256 }
        requires absent { place_in self path.now ≡ None }
        ensures { IfOk result (λ paths. paths ≡ self ++ path.now ∷ []) }
    {
        let mut paths = self;
        let place = paths.paths.len() as u32;
        paths.places.insert(path.to_vec(alloc)?, place)?;
        paths.paths.push(Bytes::from_slice(alloc, path)?)?;
        Ok(paths)
    }
}
